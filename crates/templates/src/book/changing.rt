// Adding templates to the book and deleting them.
ghost use Rattle.std.specs.Prelude.{◌≡◌, ℕ, true, false, ◌↔◌, List, IfOk, OnOk};
ghost use Rattle.std.specs.Result.{result_err};
ghost use Rattle.states.specs.Sets.{has_rule};
ghost use Rattle.books.specs.Changes.{Added, Deleted, ChangesUnless, delete_refusal};
ghost use Rattle.books.specs.Kinds.{IsRule};
ghost use Rattle.books.specs.Texts.{meets};
ghost use Rattle.templates.specs.Templates.{Fits, OthersStay, Template, TemplateAdded, TemplateDeleted, template_refusal};
ghost use Rattle.templates.specs.contracts.book.reading.TemplateBookBook.TheImpl.{ghosts as reading};

use crate::book::{RULES, TemplateBook};
use books::{BookFault, ChangingBook, Rule};

// The length of the longest template.
const LONGEST: usize = 31;

impl TemplateBook {
    // The rule to add, if every question about it gets a yes.
    fn ask(&self, rule: u32, kind: u32, bytes: &[u8]) -> Result<Rule<RULES>, BookFault>
        ensures answer { result_err result ≡ template_refusal (reading.model self.now).meaning rule kind bytes.now }
        ensures rule { IfOk result (IsRule rule kind) }
    {
        let new = self.kinds.new_rule(rule, kind)?;
        if bytes.is_empty() || bytes.len() > LONGEST {
            return Err(BookFault::Length);
        }
        Ok(new)
    }
}

impl ChangingBook for TemplateBook {
    ghost refusal = { template_refusal };

    ghost grows = { λ r k bytes. TemplateAdded r bytes };

    ghost shrinks = { TemplateDeleted };

    // Puts the template in force as `rule`: exactly the texts that fit it meet the rule then, and other rules read as before.
    // Refused where `rule` is above 7, the kind above 4,095, the rule in force, or the template not of 1 to 31 bytes.
    // Costs at most 256 steps for each byte.
    fn add(&mut self, rule: u32, kind: u32, bytes: &[u8]) -> Result<(), BookFault>
        ensures answer { result_err result ≡ template_refusal (reading.model self.old).meaning rule kind bytes.now }
        ensures change { ChangesUnless result (Added rule kind) reading.model self.old self.new }
        ensures template { OnOk result (Template rule bytes.now (reading.model self.new).meaning) }
        ensures texts { OnOk result ((text : List ℕ) →
            has_rule (meets (reading.model self.new).meaning text) rule ≡ true ↔ Fits bytes.now text) }
        ensures others { OnOk result (OthersStay rule (reading.model self.old).meaning (reading.model self.new).meaning) }
        ensures grown { OnOk result (TemplateAdded rule bytes.now
            (reading.model self.old).meaning (reading.model self.new).meaning) }
    {
        let new = self.ask(rule, kind, bytes)?;
        self.put(new, bytes);
        Ok(())
    }

    // Takes `rule` out of force: no text meets it then, and other rules read as before. Refused where it is not in force.
    fn delete(&mut self, rule: u32) -> Result<(), BookFault>
        ensures answer { result_err result ≡ delete_refusal (reading.model self.old).meaning rule }
        ensures change { ChangesUnless result (Deleted rule) reading.model self.old self.new }
        ensures texts { OnOk result ((text : List ℕ) → has_rule (meets (reading.model self.new).meaning text) rule ≡ false) }
        ensures others { OnOk result (OthersStay rule (reading.model self.old).meaning (reading.model self.new).meaning) }
        ensures shrunk { OnOk result (TemplateDeleted rule
            (reading.model self.old).meaning (reading.model self.new).meaning) }
    {
        let old = self.kinds.in_force(rule)?;
        self.remove(old);
        Ok(())
    }
}
