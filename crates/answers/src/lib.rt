// The text of answers: one line for each.
#![tactic(auto)]

mod answers;
mod rules;
mod shown;

pub use answers::{
    changed, cursor, edition, fed, finished, kind, last, malformed, new_reader, note, pattern,
    read, refused, tally, token, walk,
};
pub use shown::Shown;
