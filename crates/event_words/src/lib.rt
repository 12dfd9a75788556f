// Texts of events, as words of a machine and a kind.
#![tactic(auto)]

mod words;

pub use words::{NoEvents, events_of};
