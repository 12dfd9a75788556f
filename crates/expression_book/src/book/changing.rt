// Adding expressions to the book and deleting them.
ghost use Rattle.std.specs.Prelude.{◌≡◌, OnOk};
ghost use Rattle.std.specs.Result.{result_err};
ghost use Rattle.books.specs.Changes.{Added, Deleted, ChangesUnless, delete_refusal};
ghost use Rattle.expressions.specs.Rules.{refusal as expression_refusal};
ghost use Rattle.expression_book.specs.Tables.{book_meaning, book_model};
ghost use Rattle.expression_book.specs.Promises.{Denoting, ExpressionAdded, ExpressionDeleted};

use crate::book::ExpressionBook;
use books::{Book, BookFault, ChangingBook};
use symbols::Symbol;

impl<S: Symbol> ChangingBook for ExpressionBook<S> {
    ghost refusal = { expression_refusal S.Symbol.LAST };

    ghost grows = { λ r k bytes. ExpressionAdded S.Symbol.LAST r bytes };

    ghost shrinks = { ExpressionDeleted };

    // Puts the expression that the bytes spell in force as `rule`: exactly the texts that it denotes meet the rule then, and other
    // rules read as before. Refused, in this order, where `rule` is above 63, the kind above 4,095, the rule in force, the bytes
    // more than 1,024, a command at fault, or fewer positions free than the expression has symbols, and one for its end.
    // Reads the bytes twice, and touches a row for each last position of what a command links.
    fn add(&mut self, rule: u32, kind: u32, bytes: &[u8]) -> Result<(), BookFault>
        ensures answer { result_err result ≡ expression_refusal S.Symbol.LAST (book_meaning self.old) rule kind bytes.now }
        ensures change { ChangesUnless result (Added rule kind) book_model self.old self.new }
        ensures grown { OnOk result (ExpressionAdded S.Symbol.LAST rule bytes.now
            (book_meaning self.old) (book_meaning self.new)) }
        ensures denoting { Denoting (book_meaning self.old) → Denoting (book_meaning self.new) }
    {
        self.table.add(rule, kind, bytes, S::LAST)
    }

    // Takes `rule` out of force and frees its positions: no text meets it then, and other rules read as before. Refused where it is
    // not in force.
    fn delete(&mut self, rule: u32) -> Result<(), BookFault>
        ensures answer { result_err result ≡ delete_refusal (book_meaning self.old) rule }
        ensures change { ChangesUnless result (Deleted rule) book_model self.old self.new }
        ensures shrunk { OnOk result (ExpressionDeleted rule (book_meaning self.old) (book_meaning self.new)) }
        ensures denoting { Denoting (book_meaning self.old) → Denoting (book_meaning self.new) }
    {
        self.table.delete(rule)
    }
}
