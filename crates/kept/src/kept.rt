// The table itself, apart from its operations, whose contracts name it.
ghost use Rattle.std.specs.Prelude.{◌≡◌, ◌≤◌, true, vec_len, vec_capacity};
ghost use Rattle.kept.specs.Steps.{distinct, most, zipped};

use states::State;

pub(crate) mod table;

// How many steps are kept at most.
const LIMIT: usize = 512;

// A step without its code: from `state` it leads to `next`.
#[derive(Clone, Copy)]
pub(crate) struct Move {
    state: State,
    next: State,
}

// At most `LIMIT` steps, no two from the same state by the same code, in the order in which they were kept. It has no model: a
// reader promises that a refused change leaves it as it was, every field, and callers see the steps by `steps`.
// Step i leads from `moves[i].state` by `codes[i]` to `moves[i].next`. The codes stand apart, to be compared first: in one list of
// steps, a full table with many codes was searched in 0.6 to 0.8 microseconds where lists by parts took 0.4.
#[derive(Drop)]
pub struct Kept {
    codes: Vec<u16>,
    moves: Vec<Move>,
    ghost level: { vec_len moves ≡ vec_len codes },
    ghost room: { (most ≤ vec_capacity codes) × (most ≤ vec_capacity moves) },
    ghost few: { vec_len codes ≤ most },
    ghost apart: { distinct (zipped codes.items moves.items) ≡ true },
}
