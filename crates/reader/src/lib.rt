// A reader over any rule book. It works out a step of the book's automaton when a text first needs it, and keeps it.
#![tactic(auto)]

mod answer;
mod changing;
mod cursor;
mod cursors;
mod making;
mod reader;
mod reading;
mod seeking;
mod stepping;
mod telling;
mod tokens;
mod walk;
mod walking;

pub use answer::{Answer, Token};
pub use cursor::Cursor;
pub use reader::{NoMemory, Reader};
pub use walk::{Fed, HandedBack, Walk};
