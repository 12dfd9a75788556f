ghost use Rattle.std.specs.Prelude.{List, IfOk};
ghost use Rattle.readings.specs.Views.{fresh};
ghost use Rattle.readings.specs.Calls.{Does};
ghost use Rattle.readings.specs.Changing.{Acts};
ghost use Rattle.reader.specs.View.{view};
ghost use Rattle.replays.specs.Replays.{call_of, told_of, count_of, Replayed, ReplayedBy};

use crate::log::{Ask, Reply};
use books::ChangingBook;
use reader::{Cursor, Reader};
use std::alloc::{AllocError, Global};

// Does one call, and answers its reply.
fn perform<B: ChangingBook>(reader: &mut Reader<B>, ask: Ask<B::Symbol>) -> Reply
    ensures does { Does (call_of B.Symbol.Symbol.code ask) (told_of result) (count_of result) (view reader.old) (view reader.new) }
    ensures acts { Acts B.ChangingBook.refusal B.ChangingBook.grows B.ChangingBook.shrinks (call_of B.Symbol.Symbol.code ask) (told_of result) (count_of result)
        (view reader.old) (view reader.new) }
{
    match ask {
        Ask::Read(text) => Reply::Read(reader.read(&text)),
        Ask::Token { text, place } => Reply::Token(reader.token(&mut Cursor::new(&text, place))),
        Ask::Peek { text, place } => Reply::Token(reader.peek(&mut Cursor::new(&text, place))),
        Ask::Begin => Reply::Begun(reader.begin()),
        Ask::Feed { walk, symbol } => Reply::Fed(reader.feed(walk, symbol)),
        Ask::Finish(walk) => Reply::Finished(reader.finish(walk)),
        Ask::Add { rule, kind, bytes } => Reply::Changed(reader.add(rule, kind, &bytes)),
        Ask::Delete(rule) => Reply::Changed(reader.delete(rule)),
    }
}

// Runs a list of calls on a new reader over a book, and answers the log: one reply for each call. Each call did what the book says.
pub fn replay<B: ChangingBook + Drop>(
    heap: Global,
    book: B,
    edition: u32,
    asks: Vec<Ask<B::Symbol>>,
) -> Result<Vec<Reply>, AllocError>
    ensures history { IfOk result (λ log. Replayed B.Symbol.Symbol.code (fresh (B.Book.model book) edition) asks.items log.items) }
    ensures acts { IfOk result (λ log. ReplayedBy B.Symbol.Symbol.code (Acts B.ChangingBook.refusal B.ChangingBook.grows B.ChangingBook.shrinks)
        (fresh (B.Book.model book) edition) asks.items log.items) }
{
    let mut log = Vec::new(heap);
    let mut reader = Reader::new(heap, book, edition)?;
    for ask in asks {
        log.push(perform(&mut reader, ask))?;
    }
    Ok(log)
}
