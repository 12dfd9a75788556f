// Scripts, which are run line by line by whatever runs one line.
#![tactic(auto)]

mod fault;
mod program;
mod runner;
mod script;

pub use fault::Fault;
pub use program::{Stopped, script_text};
pub use runner::LineRunner;
pub use script::Script;
