ghost use Rattle.std.specs.Prelude.{◌≡◌, ℕ, ◌≤◌, List, map, length, drop, IfSome};
ghost use Rattle.readings.specs.Readings.{Reads};
ghost use Rattle.readings.specs.Readings.Reading.{token, peek};
ghost use Rattle.reader.specs.View.{view};
ghost use Rattle.reader.specs.Seen.{best_told};

use crate::reader::Reader;
use books::Book;
use states::Rules;

// The longest beginning, not empty, that ends a rule: its length, and the rules that it ends.
#[derive(Clone, Copy)]
pub(crate) struct Best {
    pub(crate) length: usize,
    pub(crate) rules: Rules,
}

// What a search found, if anything, and how many steps were worked out.
#[derive(Clone, Copy)]
pub(crate) struct Seen {
    pub(crate) best: Option<Best>,
    pub(crate) count: usize,
}

impl<B: Book> Reader<B> {
    // Searches for the longest token at the beginning of `rest`.
    pub(crate) fn seek(&mut self, rest: &[B::Symbol]) -> Seen
        ensures bound { IfSome result.best (λ b. b.length ≤ length rest.now) }
        ensures seeks { (text : List ℕ) (place : ℕ) → drop place text ≡ map B.Symbol.Symbol.code rest.now →
            Reads (token text place) (best_told place result.best) result.count (view self.old) (view self.new)
            × Reads (peek text place) (best_told place result.best) result.count (view self.old) (view self.new) }
    {
        let mut state = self.book.start();
        let mut best = None;
        let mut count: usize = 0;
        for (i, symbol) in rest.iter().enumerate() {
            if state.is_empty() {
                break;
            }
            let taken = self.step(state, *symbol);
            state = taken.state;
            count += usize::from(taken.worked);
            let rules = self.book.ended(state);
            if !rules.is_empty() {
                best = Some(Best {
                    length: i + 1,
                    rules,
                });
            }
        }
        Seen { best, count }
    }
}
