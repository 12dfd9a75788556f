// Rule books: what a reader may ask of one, what may be changed in one, and why a call is refused.
#![tactic(auto)]

mod book;
mod changing;
mod faults;
mod kinds;
mod noted;
mod refusal;

pub use book::Book;
pub use changing::ChangingBook;
pub use faults::{BookFault, Cause, CommandFault};
pub use kinds::{Kinds, Rule};
pub use noted::Noted;
pub use refusal::{Refusal, Told};
