ghost use Rattle.std.specs.Prelude.{◌≡◌, false, [], ◌∷◌, if◌then◌else◌};
ghost use Rattle.states.specs.Sets.{is_empty};
ghost use Rattle.books.specs.Meaning.{Within};
ghost use Rattle.kept.specs.Steps.{found};
ghost use Rattle.readings.specs.Runs.{goes, Works};
ghost use Rattle.reader.specs.View.{view};

use crate::reader::Reader;
use books::Book;
use states::State;
use symbols::Symbol;

// Where a step led, and whether it was worked out. The state is there in both cases, so it is no Option; `Fed` says the same of a
// walk, and one type over both would name neither.
#[derive(Clone, Copy)]
pub(crate) struct Taken {
    pub(crate) state: State,
    pub(crate) worked: bool,
}

impl<B: Book> Reader<B> {
    // One step from a state of live positions that is not empty: a kept one if there is one, else it is worked out. Never inlined:
    // within the loop over a text, its search of a full table took a fifth longer.
    #[inline(never)]
    pub(crate) fn step(&mut self, state: State, symbol: B::Symbol) -> Taken
        requires some { is_empty state ≡ false }
        requires live { Within (B.model self.old.book).meaning state }
        ensures state { result.state ≡ goes (view self.old) state (B.Symbol.Symbol.code symbol) }
        ensures works { Works ((state, B.Symbol.Symbol.code symbol) ∷ []) (if result.worked then 1 else 0) (view self.old) (view self.new) }
        ensures live { Within (B.model self.new.book).meaning result.state }
    {
        let code = symbol.code();
        if let Some(next) = self.kept.find(state, code) {
            return Taken {
                state: next,
                worked: false,
            };
        }
        Taken {
            state: self.work_out(state, symbol),
            worked: true,
        }
    }

    // Works out a step that is not kept: the book is asked, and its step is kept while there is room. Never inlined: beside the
    // search, what LLVM knows of a book's next state (of a number's, three words are zero) had it store a kept one in uneven parts,
    // for which the next symbol's loads by two words had to wait.
    #[inline(never)]
    fn work_out(&mut self, state: State, symbol: B::Symbol) -> State
        requires some { is_empty state ≡ false }
        requires live { Within (B.model self.old.book).meaning state }
        requires new { found (view self.old).kept state (B.Symbol.Symbol.code symbol) ≡ None }
        ensures state { result ≡ goes (view self.old) state (B.Symbol.Symbol.code symbol) }
        ensures works { Works ((state, B.Symbol.Symbol.code symbol) ∷ []) 1 (view self.old) (view self.new) }
        ensures live { Within (B.model self.new.book).meaning result }
    {
        let code = symbol.code();
        let next = self.book.next(state, symbol);
        self.tally = self.tally.saturating_add(1);
        self.kept.keep(state, code, next);
        next
    }
}
