// Changing the rules of the book in use.
ghost use Rattle.std.specs.Prelude.{codes};
ghost use Rattle.books.specs.Changes.{delete_refusal};
ghost use Rattle.readings.specs.Calls.Call.{add as adding, delete as deleting};
ghost use Rattle.readings.specs.Changing.{Acts};
ghost use Rattle.reader.specs.Answers.{change_refusal};
ghost use Rattle.passes.specs.Runs.{Done};
ghost use Rattle.contexts.specs.Uses.{Changes};
ghost use Rattle.contexts.specs.Contexts.{use_of};

use crate::context::Context;
use crate::telling::tell_change;
use books::ChangingBook;
use std::alloc::AllocError;

impl<B: ChangingBook> Context<B> {
    // Adds a rule by its bytes. `word` is the word of the command, add or code: any text, since an enum would ask more of callers.
    pub fn add(
        &mut self,
        word: &str,
        rule: u32,
        kind: u32,
        bytes: &[u8],
        out: &mut String,
    ) -> Result<(), AllocError>
        ensures { Done result use_of
            (Changes word.now rule (Acts B.ChangingBook.refusal B.ChangingBook.grows B.ChangingBook.shrinks) (adding rule kind bytes.now)
            (change_refusal self.old.reader.edition (B.ChangingBook.refusal (B.Book.model self.old.reader.book).meaning rule kind bytes.now)))
            self.old self.new out.old out.new }
    {
        let changed = self.reader.add(rule, kind, bytes);
        tell_change(out, word, rule, changed)
    }

    // Deletes a rule.
    pub fn delete(&mut self, rule: u32, out: &mut String) -> Result<(), AllocError>
        ensures { Done result use_of
            (Changes (codes "delete") rule (Acts B.ChangingBook.refusal B.ChangingBook.grows B.ChangingBook.shrinks) (deleting rule)
            (change_refusal self.old.reader.edition (delete_refusal (B.Book.model self.old.reader.book).meaning rule)))
            self.old self.new out.old out.new }
    {
        let changed = self.reader.delete(rule);
        tell_change(out, "delete", rule, changed)
    }
}
