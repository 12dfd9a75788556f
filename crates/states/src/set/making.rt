// Sets made of numbers and of other sets. Each is stated by its members.
ghost use Rattle.std.specs.Prelude.{◌≡◌, ℕ, ◌+◌, ◌-◌, ◌*◌, ◌<◌, false, not, ◌&&◌, ◌||◌, ◌==◌, nat_le, nat_lt, slice_index};
ghost use Rattle.states.specs.Sets.{has};

use crate::State;
use crate::set::{Set, Width, Words};
use std::array;

impl<const WORDS: usize> Set<WORDS>
where
    Words: Width<WORDS>,
{
    pub fn empty() -> Self
        ensures { (p : ℕ) → has result p ≡ false }
    {
        Set { words: [0; WORDS] }
    }

    // The set of all numbers below its bound.
    pub fn full() -> Self
        ensures { (p : ℕ) → has result p ≡ nat_lt p (64 * WORDS) }
    {
        Set {
            words: [u64::MAX; WORDS],
        }
    }

    // The set of one number, which is empty where the number is not below its bound.
    pub fn single(at: u8) -> Self
        ensures within { (p : ℕ) → has result p ≡ (p == at && nat_lt p (64 * WORDS)) }
        ensures alone { at < 64 * WORDS → (p : ℕ) → has result p ≡ (p == at) }
    {
        // each word by itself: one written at an index known only as it runs would lie in memory, and each reader of the set would wait for it
        let k = usize::from(at / 64);
        let word = 1 << (at % 64);
        Set {
            words: array::from_fn(|i| if i == k { word } else { 0 }),
        }
    }

    pub fn with(self, at: u8) -> Self
        ensures within { (p : ℕ) → has result p ≡ (has self.entry p || (p == at && nat_lt p (64 * WORDS))) }
        ensures alone { at < 64 * WORDS → (p : ℕ) → has result p ≡ (has self.entry p || p == at) }
    {
        self.union(Set::single(at))
    }

    pub fn union(self, other: Self) -> Self
        ensures { (p : ℕ) → has result p ≡ (has self.entry p || has other.entry p) }
    {
        self.by_words(other, |word, also| word | also)
    }

    pub fn meet(self, other: Self) -> Self
        ensures { (p : ℕ) → has result p ≡ (has self.entry p && has other.entry p) }
    {
        self.by_words(other, |word, also| word & also)
    }

    pub fn without(self, other: Self) -> Self
        ensures { (p : ℕ) → has result p ≡ (has self.entry p && not (has other.entry p)) }
    {
        self.by_words(other, |word, gone| word & !gone)
    }

    // The set whose words `op` makes of the words of two sets.
    fn by_words<F: Fn(u64, u64) -> u64 + Drop>(self, other: Self, op: F) -> Self
        requires { F.IsAlwaysCallable op }
        ensures { (k : ℕ) → k < WORDS → F.post op (slice_index self.entry.words k) (slice_index other.entry.words k) (slice_index result.words k) }
    {
        Set {
            words: array::from_fn(
                |k| -> u64
                    requires { (k < WORDS) × F.IsAlwaysCallable op }
                    ensures { F.post op (slice_index self.words k) (slice_index other.words k) result }
                { op(self.words[k], other.words[k]) },
            ),
        }
    }

    // Each member moves up by one, and the last number drops out.
    pub fn raised(self) -> Self
        ensures first { has result 0 ≡ false }
        ensures others { (p : ℕ) → has result (p + 1) ≡ (nat_lt p (64 * WORDS - 1) && has self.entry p) }
    {
        let mut words = self.words;
        let mut carry = 0;
        for word in words.iter_mut() {
            let top = *word >> 63;
            *word = (*word << 1) | carry;
            carry = top;
        }
        Set { words }
    }
}

impl State {
    // The state with the positions from `low` to `high` too.
    pub fn with_range(self, low: u8, high: u8) -> State
        ensures { (p : ℕ) → has result p ≡ (has self p || (nat_le low p && nat_le p high)) }
    {
        let mut out = self;
        for at in low..=high {
            out = out.with(at);
        }
        out
    }
}
