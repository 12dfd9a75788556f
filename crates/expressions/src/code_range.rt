// Ranges of codes.
ghost use Rattle.std.specs.Prelude.{◌≡◌, ◌<◌};
ghost use Rattle.expressions.specs.CodeRange.{only, none, contains, is_up_to};

// The codes from `low` to `high`; none, where low is above high. It can be copied, as std's ranges cannot.
#[derive(Clone, Copy, PartialEq, Eq, Debug)]
pub struct CodeRange {
    pub low: u16,
    pub high: u16,
}

impl CodeRange {
    // One code alone.
    pub fn only(code: u16) -> CodeRange
        ensures { result ≡ only code }
    {
        CodeRange {
            low: code,
            high: code,
        }
    }

    // No code: an empty range, as the library's ranges may be, so that a step asks each position for no Option.
    pub fn none() -> CodeRange
        ensures { result ≡ none }
    {
        CodeRange { low: 1, high: 0 }
    }

    // Whether the code is one of them.
    pub fn contains(self, code: u16) -> bool
        ensures { result ≡ contains self code }
    {
        self.low <= code && code <= self.high
    }

    // Whether there are some, all of them up to the last one.
    pub fn is_up_to(self, last: u16) -> bool
        ensures { result ≡ is_up_to last self }
    {
        self.low <= self.high && self.high <= last
    }
}
