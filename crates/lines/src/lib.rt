// The lines of a script: which line spells which command.
#![tactic(auto)]

mod arguments;
mod command;
mod decimals;
mod hex_pairs;
mod parsing;
mod parts;
mod word;

pub use arguments::{Behind, saturated};
pub use command::{BookName, Command, Expected, Order, Task};
pub use decimals::{NoDecimal, decimal};
pub use hex_pairs::{NoBytes, bytes_of, is_hex};
pub use parsing::{is_skipped, parse};
pub use parts::{NEWLINE, Parted, SPACE, part};
pub use word::Word;
