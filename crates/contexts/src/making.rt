// A reader that comes into use.
ghost use Rattle.std.specs.Prelude.{◌≡◌, None as Nothing};

use crate::context::Context;
use books::Book;
use reader::Reader;

impl<B: Book> Context<B> {
    // With no cursor and no walk.
    pub fn new(reader: Reader<B>) -> Context<B>
        ensures { result ≡ record { reader = reader; cursor = Nothing; walk = Nothing } }
    {
        Context {
            reader,
            cursor: None,
            walk: None,
        }
    }
}
