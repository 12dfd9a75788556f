// A set of numbers, in machine words.
ghost use Rattle.std.specs.Prelude.{◌≡◌, ℕ, ◌^◌, ◌<◌, ◌≤◌, length, slice_index};
ghost use Rattle.std.proofs.Common.{lit≤};

pub(crate) mod making;
pub(crate) mod reading;

// A set of numbers below 64 × WORDS. Number n is digit n % 64 of word n / 64. It has no model: its members are a function, so that
// each contract would still say for each number whether it is one.
#[derive(Clone, Copy, Eq, Debug)]
pub struct Set<const WORDS: usize> {
    pub words: [u64; WORDS],
    ghost long: { length words ≡ WORDS },
    ghost fits: { (k : ℕ) → slice_index words k < 2 ^ 64 },
}

// How many words a set may have: so few that each member is a `u8`.
pub trait Width<const WORDS: usize> {
    ghost small: { WORDS ≤ 4 };
}

// Bounds are said of types, so that `Words: Width<WORDS>` stands for the bound on a number of words.
pub struct Words;

impl Width<1> for Words {
    ghost small = { lit≤ tt };
}

impl Width<4> for Words {
    ghost small = { lit≤ tt };
}
