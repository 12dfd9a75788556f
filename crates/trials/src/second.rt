// The second scanner: it reads by the meaning of rules alone, all of it afresh for each text, and shares no code with the first. It has
// numbers and lists only: no sets of positions, no automaton.
pub(crate) mod answer;
pub(crate) mod begins;
pub(crate) mod calls;
pub(crate) mod class;
pub(crate) mod commands;
pub(crate) mod grid;
pub(crate) mod node;
pub(crate) mod number;
pub(crate) mod parts;
pub(crate) mod pattern;
pub(crate) mod rule;
pub(crate) mod twin;
