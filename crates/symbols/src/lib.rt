// The symbols that a text is made of. A reader needs of a symbol its code alone.
#![tactic(auto)]

mod event;
mod symbol;

pub use event::{Event, OutOfRange};
pub use symbol::Symbol;
