// Parts of a pattern text.
ghost use Rattle.std.specs.Prelude.{◌≡◌, ◌+◌, ◌≤◌, length, take, drop};

// Some bytes of a pattern text, which has at most 256, and the place where they begin.
#[derive(Clone, Copy)]
pub(crate) struct Text<'t> {
    pub(crate) bytes: &'t [u8],
    pub(crate) place: usize,
    ghost within: { place + length bytes.now ≤ 256 },
}

impl<'t> Text<'t> {
    // The first n bytes.
    pub(crate) fn take(self, n: usize) -> Text<'t>
        requires { n ≤ length self.bytes.now }
        ensures bytes { result.bytes.now ≡ take n self.entry.bytes.now }
        ensures place { result.place ≡ self.entry.place }
    {
        Text {
            bytes: &self.bytes[..n],
            place: self.place,
        }
    }

    // What is behind the first n bytes.
    pub(crate) fn skip(self, n: usize) -> Text<'t>
        requires { n ≤ length self.bytes.now }
        ensures bytes { result.bytes.now ≡ drop n self.entry.bytes.now }
        ensures place { result.place ≡ self.entry.place + n }
    {
        Text {
            bytes: &self.bytes[n..],
            place: self.place + n,
        }
    }
}
