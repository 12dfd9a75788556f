// The members of a set, in rising order.
ghost use Rattle.std.specs.Prelude.{◌≡◌};
ghost use Rattle.std.specs.Iterator.{YieldsFirst, item_count};
ghost use Rattle.states.specs.Sets.{members};

use crate::set::{Set, Width, Words};

// The members that are left.
#[derive(Clone, Debug, Drop)]
pub struct Iter<const WORDS: usize> {
    rest: Set<WORDS>,
}

impl<const WORDS: usize> Iterator for Iter<WORDS>
where
    Words: Width<WORDS>,
{
    type Item = u8;

    ghost next_gives = { YieldsFirst (λ s. members s.rest) };

    ghost remaining = { item_count (λ s. members s.rest) };

    fn next(&mut self) -> Option<u8> {
        self.rest.pop_lowest()
    }
}

impl<const WORDS: usize> Set<WORDS>
where
    Words: Width<WORDS>,
{
    // The members, in rising order.
    pub fn members(self) -> Iter<WORDS>
        ensures { result.rest ≡ self.entry }
    {
        Iter { rest: self }
    }
}
