// Random numbers, the same from the same seed.
ghost use Rattle.std.specs.Prelude.{◌<◌};

// A generator of random numbers, by the method splitmix64.
#[derive(Drop)]
pub(crate) struct Random {
    state: u64,
}

impl Random {
    pub(crate) fn new(seed: u64) -> Random {
        Random { state: seed }
    }

    // The next number, any of 64 bits.
    pub(crate) fn number(&mut self) -> u64 {
        self.state = self.state.wrapping_add(0x9e37_79b9_7f4a_7c15);
        let mut mixed = self.state;
        mixed = (mixed ^ (mixed >> 30)).wrapping_mul(0xbf58_476d_1ce4_e5b9);
        mixed = (mixed ^ (mixed >> 27)).wrapping_mul(0x94d0_49bb_1331_11eb);
        mixed ^ (mixed >> 31)
    }

    // The next number of 32 bits.
    pub(crate) fn word(&mut self) -> u32 {
        (self.number() & 0xffff_ffff) as u32
    }

    // A number of 32 bits below `bound`; 0 where there is none.
    pub(crate) fn word_below(&mut self, bound: u32) -> u32 {
        self.word().checked_rem(bound).unwrap_or(0)
    }

    // A number below `bound`; 0 where there is none.
    pub(crate) fn below(&mut self, bound: usize) -> usize
        ensures { 0 < bound → result < bound }
    {
        let number = self.number() as usize;
        if bound == 0 { 0 } else { number % bound }
    }

    // Whether it comes out, which it does once in so many times.
    pub(crate) fn once_in(&mut self, times: usize) -> bool {
        self.below(times) == 0
    }

    // One of these; `otherwise` where there is none.
    pub(crate) fn one_of<T: Copy>(&mut self, choices: &[T], otherwise: T) -> T {
        let at = self.below(choices.len());
        choices.get(at).copied().unwrap_or(otherwise)
    }
}
