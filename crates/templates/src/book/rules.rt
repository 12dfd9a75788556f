// Putting a rule in force and taking it out, by the parts of the book.
ghost use Rattle.std.specs.Prelude.{◌≡◌, ℕ, ◌+◌, ◌-◌, ◌*◌, ◌/◌, ◌<◌, not, ◌&&◌, ◌||◌, length, Some, None, ◌==◌, nat_le, slice_set};
ghost use Rattle.states.specs.Sets.{has};
ghost use Rattle.books.specs.Kinds.{kind_in};
ghost use Rattle.templates.specs.Tables.{at};
ghost use Rattle.templates.specs.Templates.{takes_at};

use crate::book::{RULES, TemplateBook};
use crate::table::{SPAN, block, clear, place};
use books::Rule;

impl TemplateBook {
    // Puts a template in force under a number that is free.
    pub(crate) fn put(&mut self, rule: Rule<RULES>, bytes: &[u8])
        requires free { kind_in self.old.kinds rule.number ≡ None }
        requires short { length bytes.now < 32 }
        ensures kinds { self.new.kinds.by_rule ≡ slice_set self.old.kinds.by_rule rule.number (Some rule.kind) }
        ensures takes { (c p : ℕ) → at self.new.takes c p
            ≡ (at self.old.takes c p || (nat_le (32 * rule.number) p && takes_at bytes.now (p - 32 * rule.number) c)) }
        ensures ends { (p : ℕ) → has self.new.ends p
            ≡ (has self.old.ends p || p == 32 * rule.number + length bytes.now) }
        ensures note { self.new.asked ≡ self.old.asked }
    {
        let first = SPAN * rule.number;
        self.kinds.put(rule);
        self.live = self.live.union(block(rule));
        self.start = self.start.with(first);
        self.ends = self.ends.with(first + bytes.len() as u8);
        place(&mut self.takes, first, bytes);
    }

    // Takes a rule out of force.
    pub(crate) fn remove(&mut self, rule: Rule<RULES>)
        ensures kinds { self.new.kinds.by_rule ≡ slice_set self.old.kinds.by_rule rule.number None }
        ensures takes { (c p : ℕ) → at self.new.takes c p
            ≡ (at self.old.takes c p && not (p / 32 == rule.number)) }
        ensures ends { (p : ℕ) → has self.new.ends p ≡ (has self.old.ends p && not (p / 32 == rule.number)) }
        ensures note { self.new.asked ≡ self.old.asked }
    {
        let gone = block(rule);
        self.kinds.remove(rule);
        self.live = self.live.without(gone);
        self.start = self.start.without(gone);
        self.ends = self.ends.without(gone);
        clear(&mut self.takes, gone);
    }
}
