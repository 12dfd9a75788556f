ghost use Rattle.std.specs.Prelude.{map};
ghost use Rattle.readings.specs.Readings.{ReadsAsMeant};
ghost use Rattle.readings.specs.Readings.Reading.{whole};
ghost use Rattle.readings.specs.Readings.Told.{ended};
ghost use Rattle.readings.specs.Calls.{Does};
ghost use Rattle.readings.specs.Calls.Call.{read as reads};
ghost use Rattle.reader.specs.View.{view};

use crate::answer::Answer;
use crate::reader::Reader;
use books::Book;

impl<B: Book> Reader<B> {
    // Reads a whole text: the rules that it meets, and how many steps were worked out. Nothing is allocated.
    pub fn read(&mut self, text: &[B::Symbol]) -> Answer
        ensures does { Does (reads (whole (map B.Symbol.Symbol.code text.now))) (ended result.rules) result.count (view self.old) (view self.new) }
        ensures meant { ReadsAsMeant (whole (map B.Symbol.Symbol.code text.now)) (ended result.rules) result.count (view self.old) (view self.new) }
    {
        // a loop as in `seek`, which looks at each state on the way: one for both would take a closure that borrows the reader again
        let mut state = self.book.start();
        let mut count: usize = 0;
        for symbol in text {
            if state.is_empty() {
                break;
            }
            let taken = self.step(state, *symbol);
            state = taken.state;
            count += usize::from(taken.worked);
        }
        Answer {
            rules: self.book.ended(state),
            count,
        }
    }
}
