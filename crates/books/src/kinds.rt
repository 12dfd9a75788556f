// The kinds of the rules in force, and what every book asks of a rule to add or to delete.
ghost use Rattle.std.specs.Prelude.{◌≡◌, ℕ, ◌<◌, ◌≤◌, length, None, Some, IfOk, slice_index_or, slice_set};
ghost use Rattle.std.specs.Result.{result_err};
ghost use Rattle.books.specs.Changes.{first_no, new_rule, absence};

use crate::faults::BookFault;

// Kinds lie below this.
const KINDS: u32 = 4096;

// A rule's number and kind, both in range for a book whose rules have numbers below `RULES`.
#[derive(Clone, Copy, PartialEq, Eq, Debug)]
pub struct Rule<const RULES: usize> {
    pub number: u8,
    pub kind: u16,
    pub ghost below: { number < RULES },
    pub ghost small: { kind < 4096 },
}

// The kinds of the rules in force in a book whose rules have numbers below `RULES`, which is at most 64. It has no model: a book
// promises that a refused call leaves it as it was, every field, and callers see the kinds by `kind_in`.
#[derive(Drop)]
pub struct Kinds<const RULES: usize> {
    // by rule, a number below `RULES`, so that an array is the map: its kind, if it is in force
    by_rule: [Option<u16>; RULES],
    pub ghost size: { (length by_rule ≡ RULES) × (RULES ≤ 64) },
    pub ghost small: { (r k : ℕ) → slice_index_or by_rule r None ≡ Some k → k < 4096 },
}

impl<const RULES: usize> Kinds<RULES> {
    ghost use Rattle.books.specs.Kinds.{IsRule, kind_in};

    // No rule is in force.
    pub fn new() -> Kinds<RULES>
        requires { RULES ≤ 64 }
        ensures { (r : ℕ) → kind_in result r ≡ None }
    {
        Kinds {
            by_rule: [None; RULES],
        }
    }

    // The kind of a rule, or none where the rule is not in force.
    pub fn get(&self, rule: u32) -> Option<u16>
        ensures { result ≡ kind_in self.now rule }
    {
        self.by_rule.get(rule as usize).copied().flatten()
    }

    // The rule, if its number and kind are in range and no rule of this number is in force.
    pub fn new_rule(&self, rule: u32, kind: u32) -> Result<Rule<RULES>, BookFault>
        ensures answer { result_err result ≡ first_no (new_rule RULES (kind_in self.now rule) rule kind) }
        ensures rule { IfOk result (IsRule rule kind) }
    {
        if rule as usize >= RULES {
            return Err(BookFault::Number);
        }
        if kind >= KINDS {
            return Err(BookFault::Kind);
        }
        if self.get(rule).is_some() {
            return Err(BookFault::Taken);
        }
        Ok(Rule {
            number: rule as u8,
            kind: kind as u16,
        })
    }

    // The rule, if it is in force.
    pub fn in_force(&self, rule: u32) -> Result<Rule<RULES>, BookFault>
        ensures answer { result_err result ≡ absence (kind_in self.now rule) }
        ensures rule { IfOk result (λ it. (it.number ≡ rule) × (kind_in self.now rule ≡ Some it.kind)) }
    {
        let kind = self.get(rule).ok_or(BookFault::Absent)?;
        Ok(Rule {
            number: rule as u8,
            kind,
        })
    }

    // Puts the rule in force.
    pub fn put(&mut self, rule: Rule<RULES>)
        ensures { self.new.by_rule ≡ slice_set self.old.by_rule rule.entry.number (Some rule.entry.kind) }
    {
        self.by_rule[rule.number as usize] = Some(rule.kind);
    }

    // Takes the rule out of force.
    pub fn remove(&mut self, rule: Rule<RULES>)
        ensures { self.new.by_rule ≡ slice_set self.old.by_rule rule.entry.number None }
    {
        self.by_rule[rule.number as usize] = None;
    }
}
