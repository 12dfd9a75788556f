ghost use Rattle.std.specs.Prelude.{◌≤◌, length};

// A text and a place in it, never beyond its length, with the part of the text that was the last token read: from `from` to `to`,
// two numbers and no Range, which is not Copy and no plainer for a part that one function cuts out. The text is only borrowed: who
// owns one keeps the numbers beside it, and makes a cursor for each call.
#[derive(Drop)]
pub struct Cursor<'a, S> {
    pub(crate) text: &'a [S],
    pub(crate) place: usize,
    pub(crate) from: usize,
    pub(crate) to: usize,
    ghost within: { place ≤ length text.now },
    ghost part: { (from ≤ to) × (to ≤ length text.now) },
}
