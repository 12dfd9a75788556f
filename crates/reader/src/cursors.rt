ghost use Rattle.std.specs.Prelude.{◌≡◌, ◌-◌, min, length, take, drop};
ghost use Rattle.reader.specs.Cursors.{Stands};

use crate::cursor::Cursor;

impl<'a, S> Cursor<'a, S> {
    // A cursor at a place of a text; a place beyond its length becomes the length. Its last token is the empty part there.
    pub fn new(text: &'a [S], place: usize) -> Cursor<'a, S>
        ensures { Stands text.now (min place (length text.now)) (min place (length text.now)) (min place (length text.now)) result }
    {
        let place = place.min(text.len());
        Cursor {
            text,
            place,
            from: place,
            to: place,
        }
    }

    // Where the next token will be looked for.
    pub fn place(&self) -> usize
        ensures { result ≡ self.now.place }
    {
        self.place
    }

    // The text, whole.
    pub fn text(&self) -> &'a [S]
        ensures { result.now ≡ self.now.text.now }
    {
        self.text
    }

    // The part of the text that was the last token read, or the empty part at the place before any.
    pub fn last(&self) -> &'a [S]
        ensures { result.now ≡ take (self.now.to - self.now.from) (drop self.now.from self.now.text.now) }
    {
        let text = self.text;
        &text[self.from..self.to]
    }

    // Where that part begins.
    pub fn last_place(&self) -> usize
        ensures { result ≡ self.now.from }
    {
        self.from
    }
}
