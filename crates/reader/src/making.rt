ghost use Rattle.std.specs.Prelude.{◌≡◌, List, IfOk, MatchResult};
ghost use Rattle.readings.specs.Views.{fresh};
ghost use Rattle.readings.specs.Entries.{Entry};
ghost use Rattle.readings.specs.Histories.{History, Stands};
ghost use Rattle.reader.specs.View.{view};

use crate::reader::{NoMemory, Reader};
use books::Book;
use kept::Kept;
use std::alloc::Global;

impl<B: Book> Reader<B> {
    // A reader over a book in any condition: tally 0 and nothing kept. All the memory that it will ever need is taken
    // here; where there is none, the book is handed back. Whatever calls then follow, their readings stand: each tells what
    // the book means at the call, and works out only what is not kept.
    pub fn new(heap: Global, book: B, edition: u32) -> Result<Reader<B>, NoMemory<B>>
        ensures made { MatchResult result (λ x. view x ≡ fresh (B.model book) edition) (λ e. e.book ≡ book) }
        ensures stands { IfOk result (λ x. (es : List Entry) → History (view x) es → Stands es) }
    {
        // no `map_err`: its closure would take the book
        let Ok(kept) = Kept::new(heap) else {
            return Err(NoMemory { book });
        };
        Ok(Reader {
            book,
            kept,
            edition,
            tally: 0,
        })
    }
}
