// The changing interface, above the reading one.
ghost use Rattle.std.specs.Prelude.{◌≡◌, ℕ, List, Option, OnOk, ⊤};
ghost use Rattle.std.specs.Result.{result_err};
ghost use Rattle.books.specs.Meaning.{Meaning};
ghost use Rattle.books.specs.Changes.{Added, Deleted, ChangesUnless, delete_refusal};
ghost use Rattle.books.specs.declared.faults.BookFault.{BookFault};

use crate::book::Book;
use crate::faults::BookFault;

// A rule book that can be changed. A refused change alters nothing.
pub trait ChangingBook: Book {
    // why adding a rule by its number, kind and bytes is refused, if it is, by what the book means alone
    ghost refusal: { Meaning → ℕ → ℕ → List ℕ → Option BookFault };

    // what an accepted adding by the rule's number, kind and bytes makes of a meaning, beyond what it does in every book;
    // a book that says nothing of it leaves this out, which it could not of a part of one record of all three
    ghost grows: { ℕ → ℕ → List ℕ → Meaning → Meaning → Type 0 } = { λ _ _ _ _ _. ⊤ };

    // the same of an accepted deletion by the rule's number
    ghost shrinks: { ℕ → Meaning → Meaning → Type 0 } = { λ _ _ _. ⊤ };

    // Puts a rule in force. Its number, kind and bytes come as they may: nothing holds of the three together before the book has
    // asked its questions, and number and kind are one `Rule` behind them.
    fn add(&mut self, rule: u32, kind: u32, bytes: &[u8]) -> Result<(), BookFault>
        ensures answer { result_err result ≡ refusal (Self.Book.model self.old).meaning rule kind bytes.now }
        ensures change { ChangesUnless result (Added rule kind) Self.Book.model self.old self.new }
        ensures grown { OnOk result (grows rule kind bytes.now
            (Self.Book.model self.old).meaning (Self.Book.model self.new).meaning) };

    // Takes a rule out of force.
    fn delete(&mut self, rule: u32) -> Result<(), BookFault>
        ensures answer { result_err result ≡ delete_refusal (Self.Book.model self.old).meaning rule }
        ensures change { ChangesUnless result (Deleted rule) Self.Book.model self.old self.new }
        ensures shrunk { OnOk result (shrinks rule
            (Self.Book.model self.old).meaning (Self.Book.model self.new).meaning) };
}
