// Making an expression book, and its note.
ghost use Rattle.std.specs.Prelude.{◌≡◌, ℕ, false, List, None};
ghost use Rattle.states.specs.Sets.{has_rule};
ghost use Rattle.books.specs.Texts.{meets};
ghost use Rattle.expressions.specs.Rules.{Additive};
ghost use Rattle.expression_book.specs.Promises.{Denoting};
ghost use Rattle.expression_book.specs.Tables.{book_meaning, book_model};

use crate::book::ExpressionBook;
use crate::table::Table;
use books::Noted;
use std::marker::PhantomData;
use symbols::Symbol;

impl<S: Symbol> ExpressionBook<S> {
    // The book with no rule in force, not yet asked. Nothing is allocated.
    pub fn new() -> ExpressionBook<S>
        ensures rules { (q : ℕ) → (book_meaning result).kind q ≡ None }
        ensures texts { (text : List ℕ) (q : ℕ) → has_rule (meets (book_meaning result) text) q ≡ false }
        ensures note { (book_model result).note ≡ 0 }
        ensures additive { Additive (book_meaning result) }
        ensures denoting { Denoting (book_meaning result) }
    {
        ExpressionBook {
            table: Table::new(),
            symbol: PhantomData,
        }
    }
}

// The note is the count of questions, up to the last number of 32 bits.
impl<S: Symbol> Noted for ExpressionBook<S> {
    fn note(&self) -> u32 {
        self.table.asked
    }
}
