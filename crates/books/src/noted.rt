// Books whose note can be read.
ghost use Rattle.std.specs.Prelude.{◌≡◌};

use crate::book::Book;

// A book that tells its note. Three books count in it, each by a `u32` and `saturating_add`: a type for the count would still be kept,
// begun, raised and told by a line in each.
pub trait Noted: Book {
    // The note as it stands.
    fn note(&self) -> u32
        ensures { result ≡ (Self.Book.model self.now).note };
}
