ghost use Rattle.std.specs.Prelude.{◌≡◌, ◌+◌, ◌<◌, MatchResult, OnErr};
ghost use Rattle.std.specs.Result.{result_err};
ghost use Rattle.books.specs.Changes.{delete_refusal};
ghost use Rattle.books.specs.declared.refusal.Refusal.TheVariants.{LastEdition};
ghost use Rattle.readings.specs.Calls.{Does, final};
ghost use Rattle.readings.specs.Calls.Call.{add as adding, delete as deleting};
ghost use Rattle.readings.specs.Changing.{Acts};
ghost use Rattle.reader.specs.View.{view};
ghost use Rattle.reader.specs.Answers.{change_told, change_refusal};

use crate::reader::Reader;
use books::{ChangingBook, Refusal};

impl<B: ChangingBook> Reader<B> {
    // The edition after this one; refused at the last.
    fn next_edition(&self) -> Result<u32, Refusal>
        ensures { MatchResult result
            (λ e. (self.now.edition < final) × (e ≡ self.now.edition + 1))
            (λ f. (self.now.edition ≡ final) × (f ≡ LastEdition)) }
    {
        self.edition.checked_add(1).ok_or(Refusal::LastEdition)
    }

    // Puts a rule in force, and answers the new edition.
    pub fn add(&mut self, rule: u32, kind: u32, bytes: &[u8]) -> Result<u32, Refusal>
        ensures answer { result_err result ≡ change_refusal self.old.edition (B.ChangingBook.refusal (B.Book.model self.old.book).meaning rule kind bytes.now) }
        ensures does { Does (adding rule kind bytes.now) (change_told result) 0 (view self.old) (view self.new) }
        ensures acts { Acts B.ChangingBook.refusal B.ChangingBook.grows B.ChangingBook.shrinks (adding rule kind bytes.now) (change_told result) 0
            (view self.old) (view self.new) }
        ensures same { OnErr result (self.new ≡ self.old) }
    {
        let edition = self.next_edition()?;
        self.book.add(rule, kind, bytes)?;
        self.edition = edition;
        Ok(edition)
    }

    // Takes a rule out of force with every kept step from a state that holds a position of it, and answers the new edition.
    pub fn delete(&mut self, rule: u32) -> Result<u32, Refusal>
        ensures answer { result_err result ≡ change_refusal self.old.edition (delete_refusal (B.Book.model self.old.book).meaning rule) }
        ensures does { Does (deleting rule) (change_told result) 0 (view self.old) (view self.new) }
        ensures acts { Acts B.ChangingBook.refusal B.ChangingBook.grows B.ChangingBook.shrinks (deleting rule) (change_told result) 0
            (view self.old) (view self.new) }
        ensures same { OnErr result (self.new ≡ self.old) }
    {
        let edition = self.next_edition()?;
        let before = self.book.live();
        self.book.delete(rule)?;
        let gone = before.without(self.book.live());
        self.kept.drop_touching(gone);
        self.edition = edition;
        Ok(edition)
    }
}
