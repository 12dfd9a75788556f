// What a reader tells of itself. None of these calls changes it.
ghost use Rattle.std.specs.Prelude.{◌≡◌};
ghost use Rattle.reader.specs.View.{view};

use crate::reader::Reader;
use books::Book;

impl<B: Book> Reader<B> {
    // How many steps were worked out since the reader was made, up to 4,294,967,295.
    pub fn tally(&self) -> u32
        ensures { result ≡ (view self.now).tally }
    {
        self.tally
    }

    pub fn edition(&self) -> u32
        ensures { result ≡ (view self.now).edition }
    {
        self.edition
    }

    // The kind of a rule, or none where the rule is not in force.
    pub fn kind(&self, rule: u32) -> Option<u16>
        ensures { result ≡ (view self.now).book.meaning.kind rule }
    {
        self.book.kind(rule)
    }

    // The book, to look at.
    pub fn book(&self) -> &B
        ensures { result.now ≡ self.now.book }
    {
        &self.book
    }
}
