// The template book itself, apart from its operations, whose contracts name it.
ghost use Rattle.std.specs.Prelude.{◌≡◌, ℕ, ◌%◌, true, ◌&&◌, length, ◌==◌, nat_lt};
ghost use Rattle.states.specs.Sets.{has};
ghost use Rattle.templates.specs.Tables.{at};
ghost use Rattle.templates.specs.Templates.{owned};

use books::Kinds;
use states::State;

pub(crate) mod changing;
pub(crate) mod making;
pub(crate) mod reading;
mod rules;

// Rule numbers lie below this.
pub(crate) const RULES: usize = 8;

// Up to eight rules, each a template of 1 to 31 bytes: '#' stands for a digit, '?' for any byte, another byte for itself.
// Rule r in force owns the 32 positions from 32 × r, and position 32 × r + i says that i bytes are matched.
#[derive(Drop)]
pub struct TemplateBook {
    kinds: Kinds<RULES>,
    // by code, of which there are 256, so that an array is the map: the positions that take it
    takes: [State; 256],
    live: State,
    start: State,
    // the position behind the last byte of each template
    ends: State,
    asked: u32,
    ghost size: { length takes ≡ 256 },
    // `owned` goes by the whole list of kinds, so that it is named here and in what a change makes of it
    ghost lives: { (p : ℕ) → has live p ≡ owned kinds.by_rule p },
    ghost starts: { (p : ℕ) → has start p ≡ (owned kinds.by_rule p && p % 32 == 0) },
    ghost ending: { (p : ℕ) → has ends p ≡ true → owned kinds.by_rule p ≡ true },
    // what takes a code is not the last position of its rule
    ghost taking: { (c p : ℕ) → at takes c p ≡ true → (owned kinds.by_rule p && nat_lt (p % 32) 31) ≡ true },
}
