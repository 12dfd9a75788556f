// Making a template book, and its note.
ghost use Rattle.std.specs.Prelude.{◌≡◌, ℕ, false, List, None};
ghost use Rattle.states.specs.Sets.{has_rule};
ghost use Rattle.books.specs.Texts.{meets};
ghost use Rattle.templates.specs.contracts.book.reading.TemplateBookBook.TheImpl.{ghosts as reading};

use crate::book::TemplateBook;
use books::{Kinds, Noted};
use states::State;

impl TemplateBook {
    // The book with no rule in force, not yet asked. Nothing is allocated.
    pub fn new() -> TemplateBook
        ensures rules { (q : ℕ) → (reading.model result).meaning.kind q ≡ None }
        ensures texts { (text : List ℕ) (q : ℕ) → has_rule (meets (reading.model result).meaning text) q ≡ false }
        ensures note { (reading.model result).note ≡ 0 }
    {
        let none = State::empty();
        TemplateBook {
            kinds: Kinds::new(),
            takes: [none; 256],
            live: none,
            start: none,
            ends: none,
            asked: 0,
        }
    }
}

// The note is the count of questions, up to the last number of 32 bits.
impl Noted for TemplateBook {
    fn note(&self) -> u32 {
        self.asked
    }
}
