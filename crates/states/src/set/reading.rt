// What a set holds. Each answer is stated by its members.
ghost use Rattle.std.specs.Prelude.{◌≡◌, ℕ, ◌+◌, ◌*◌, ◌<◌, true, false, not, ◌&&◌, Decides, MatchOption, ◌==◌, nat_eq};
ghost use Rattle.std.specs.Ordering.{on};
ghost use Rattle.std.specs.Cmp as Keys;
ghost use Rattle.std.specs.Cmp.Lexicographic.{pointwise};
ghost use Rattle.std.specs.Cmp.Rules.{comparing};
ghost use Rattle.std.proofs.Common.{rules, arith};
ghost use Rattle.states.specs.Sets.{has, same, is_empty, shares, size};
ghost use Rattle.states.specs.Words.{Least, Popped};

use crate::set::{Set, Width, Words};

// `==` says whether both have the same members, and sets with the same members are the same set.
// A derived `==` would say nothing of members.
impl<const WORDS: usize> PartialEq for Set<WORDS> {
    ghost eq = { on (λ v. v.words) (pointwise nat_eq) };

    ghost laws = { Keys.partial_equiv_from_equiv (first_of (Prim.search (comparing, rules), Prim.grind (arith, Self.row.coded.inj))) };

    fn eq(&self, other: &Set<WORDS>) -> bool
        ensures words { result ≡ on (λ v. v.words) (pointwise nat_eq) self.now other.now }
        ensures value { result ≡ same self.now other.now }
        ensures state { Decides result (self.now ≡ other.now) }
        ensures members { Decides result ((p : ℕ) → has self.now p ≡ has other.now p) }
    {
        self.words == other.words
    }
}

impl<const WORDS: usize> Set<WORDS>
where
    Words: Width<WORDS>,
{
    pub fn holds(self, at: u8) -> bool
        ensures { result ≡ has self.entry at }
    {
        let k = usize::from(at / 64);
        k < WORDS && (self.words[k] >> (at % 64)) & 1 == 1
    }

    pub fn is_empty(self) -> bool
        ensures value { result ≡ is_empty self.entry }
        ensures members { Decides result ((p : ℕ) → has self.entry p ≡ false) }
    {
        self.words == [0; WORDS]
    }

    // Whether each member is one of `other`.
    pub fn within(self, other: Self) -> bool
        ensures { Decides result ((p : ℕ) → has self.entry p ≡ true → has other.entry p ≡ true) }
    {
        self.without(other).is_empty()
    }

    // Whether some member is one of `other`.
    pub fn touches(self, other: Self) -> bool
        ensures { result ≡ shares self.entry other.entry }
    {
        !self.meet(other).is_empty()
    }

    pub fn count(self) -> u32
        ensures { result ≡ size self.entry }
    {
        // a loop: a `sum` was tried, and leaves open both what it comes to and that it fits
        let mut count = 0;
        for word in self.words {
            count += word.count_ones();
        }
        count
    }

    // The least member, if there is one.
    pub fn lowest(self) -> Option<u8>
        ensures { MatchOption result ((p : ℕ) → has self.entry p ≡ false) (λ m. Least (has self.entry) m) }
    {
        // a `for` with an early end: a `find_map` would hold the same test and the same number, in an Option
        for (k, word) in self.words.iter().enumerate() {
            if *word != 0 {
                return Some((64 * k) as u8 + word.trailing_zeros() as u8);
            }
        }
        None
    }

    // Takes the least member out, if there is one.
    pub fn pop_lowest(&mut self) -> Option<u8>
        ensures { Popped has (64 * WORDS) self.old self.new result }
    {
        let at = self.lowest()?;
        *self = self.without(Set::single(at));
        Some(at)
    }
}
