// The number book itself, and what it reads.
ghost use Rattle.std.specs.Prelude.{◌≡◌, ℕ, true, false, ◌↔◌, List, codes};
ghost use Rattle.states.specs.Sets.{has_rule};
ghost use Rattle.books.specs.Texts.{meets};
ghost use Rattle.expressions.specs.Expression.{Denotes};
ghost use Rattle.numbers.specs.Number.{number_expression, number_model, Number};
ghost use Rattle.numbers.specs.contracts.book.reading.NumberBookBook.TheImpl.{ghosts as reading};

use books::Noted;

pub(crate) mod reading;

// Rule 0, of kind 1: digits, perhaps '.' and digits, perhaps "mm". The book can be read and not changed, and its note
// counts how often it was asked for a next state.
#[derive(Drop)]
pub struct NumberBook {
    asked: u32,
}

impl NumberBook {
    // The book, not yet asked.
    pub fn new() -> NumberBook
        ensures model { reading.model result ≡ number_model 0 }
        ensures texts { (text : List ℕ) → has_rule (meets (reading.model result).meaning text) 0 ≡ true ↔ Number text }
        ensures expression { (text : List ℕ) → has_rule (meets (reading.model result).meaning text) 0 ≡ true ↔ Denotes number_expression text }
        ensures examples { (has_rule (meets (reading.model result).meaning (codes "12.5mm")) 0 ≡ true) × (has_rule (meets (reading.model result).meaning (codes "12.")) 0 ≡ false) }
    {
        NumberBook { asked: 0 }
    }
}

// The note is the count of questions, up to the last number of 32 bits.
impl Noted for NumberBook {
    fn note(&self) -> u32 {
        self.asked
    }
}
