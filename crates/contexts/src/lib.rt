// The reader in use with the cursor and the walk that commands work on, and what commands do to them. Each answer is
// appended to a text.
#![tactic(auto)]

mod changing;
mod context;
mod making;
mod obeying;
mod reading;
mod taking;
mod telling;
mod walking;

pub use context::Context;
pub use passes::Fault;
