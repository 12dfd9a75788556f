// Adding rules to the table and deleting them.
ghost use Rattle.std.specs.Prelude.{◌≡◌, ℕ, false, List, IfOk, OnOk};
ghost use Rattle.std.specs.Result.{result_err};
ghost use Rattle.states.specs.Sets.{has_rule};
ghost use Rattle.books.specs.Changes.{Added, Deleted, ChangesUnless, delete_refusal};
ghost use Rattle.books.specs.Kinds.{IsRule};
ghost use Rattle.books.specs.Texts.{meets};
ghost use Rattle.expressions.specs.Rules.{refusal};
ghost use Rattle.expression_book.specs.Tables.{table_meaning, table_model};
ghost use Rattle.expression_book.specs.Promises.{Adopts, OthersStay};

use crate::table::{RULES, Table};
use books::{BookFault, Rule};
use expressions::check;

// The length of the longest rule.
const LONGEST: usize = 1024;

// There are so many positions.
const POSITIONS: usize = 256;

impl Table {
    // Puts the expression in force, if every question gets a yes. The last code comes beside the bytes, since the table knows no kind of
    // symbol, and is proved once for all.
    pub(crate) fn add(
        &mut self,
        rule: u32,
        kind: u32,
        bytes: &[u8],
        last: u16,
    ) -> Result<(), BookFault>
        ensures answer { result_err result ≡ refusal last (table_meaning self.old) rule kind bytes.now }
        ensures change { ChangesUnless result (Added rule kind) table_model self.old self.new }
        ensures adopts { OnOk result (Adopts last rule bytes.now (table_meaning self.old) (table_meaning self.new)) }
        ensures others { OnOk result (OthersStay rule (table_meaning self.old) (table_meaning self.new)) }
    {
        let rule = self.ask(rule, kind, bytes, last)?;
        self.put(rule, bytes, last);
        Ok(())
    }

    // Takes the rule out of force, if it is.
    pub(crate) fn delete(&mut self, rule: u32) -> Result<(), BookFault>
        ensures answer { result_err result ≡ delete_refusal (table_meaning self.old) rule }
        ensures change { ChangesUnless result (Deleted rule) table_model self.old self.new }
        ensures texts { OnOk result ((text : List ℕ) → has_rule (meets (table_meaning self.new) text) rule ≡ false) }
        ensures others { OnOk result (OthersStay rule (table_meaning self.old) (table_meaning self.new)) }
    {
        let rule = self.kinds.in_force(rule)?;
        self.remove(rule);
        Ok(())
    }

    // Asks all questions about an adding, in their order, and answers the rule. Changes nothing.
    fn ask(&self, rule: u32, kind: u32, bytes: &[u8], last: u16) -> Result<Rule<RULES>, BookFault>
        ensures answer { result_err result ≡ refusal last (table_meaning self.now) rule kind bytes.now }
        ensures rule { IfOk result (IsRule rule kind) }
    {
        let rule = self.kinds.new_rule(rule, kind)?;
        if bytes.len() > LONGEST {
            return Err(BookFault::Length);
        }
        let symbols = check(bytes, last)?;
        if symbols >= POSITIONS - self.live.count() as usize {
            return Err(BookFault::Full);
        }
        Ok(rule)
    }
}
