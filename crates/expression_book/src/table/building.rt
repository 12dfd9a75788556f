// Building a rule from its commands, in place. Nothing here can fail: the run was checked, and there is room.
ghost use Rattle.std.specs.Prelude.{◌≡◌, ◌+◌, true, List, [], ◌∷◌, is_some, None, Ok};
ghost use Rattle.states.specs.Sets.{size};
ghost use Rattle.expressions.specs.Expression.{Plain, symbols};
ghost use Rattle.expressions.specs.Commands.{adds, applied, read_all};
ghost use Rattle.expression_book.specs.Parts.{stacked};
ghost use Rattle.expression_book.specs.Building.{Building, Ready, Roomy, Puts};
ghost use Rattle.expression_book.specs.Tables.{table_meaning};

use crate::part::Part;
use crate::table::{RULES, Table};
use arrayvec::ArrayVec;
use books::Rule;
use expressions::{CodeRange, Command, MOST, step};

impl Table {
    // Puts the rule that the bytes spell in force. Its end is one more symbol, behind all others, that takes no code.
    pub(crate) fn put(&mut self, rule: Rule<RULES>, bytes: &[u8], last: u16)
        requires free { (table_meaning self.old).kind rule.number ≡ None }
        requires roomy { Roomy last bytes.now self.old }
        ensures { (e : Plain) → read_all last bytes.now ≡ Ok e → Puts rule.number rule.kind e self.old self.new }
    {
        self.kinds.put(rule);
        let part = self.build(rule.number, bytes, last);
        let end = Part::symbol(self.give(rule.number, CodeRange::none()));
        self.link(part.last, end.first);
        self.start = self.start.union(part.join(end).first);
        self.ends = self.ends.union(end.first);
    }

    // Builds the expression that the bytes spell, and answers its part. That the rule is in force is asked in a clause, as in `give`.
    fn build(&mut self, rule: u8, bytes: &[u8], last: u16) -> Part
        requires force { is_some ((table_meaning self.old).kind rule) ≡ true }
        requires roomy { Roomy last bytes.now self.old }
        ensures { (e : Plain) → read_all last bytes.now ≡ Ok e
            → Building self.old rule (e ∷ []) (result ∷ []) self.new × (size self.new.live ≡ size self.old.live + symbols e) }
    {
        let mut waiting = ArrayVec::new();
        let mut rest = bytes;
        // the project's form for a run, as in `check`
        while let [letter, behind @ ..] = rest {
            // the run was checked before anything was changed, so each step is taken
            let (command, tail) = step(*letter, behind, last, waiting.len()).unwrap();
            self.obey(&mut waiting, rule, command);
            rest = tail;
        }
        waiting.pop().unwrap()
    }

    // Obeys one command of the rule.
    fn obey(&mut self, waiting: &mut ArrayVec<Part, MOST>, rule: u8, command: Command)
        requires { Ready rule command (stacked waiting.old) self.old }
        ensures count { size self.new.live ≡ size self.old.live + adds command }
        ensures built { (a : Table) (W : List Plain) → Building a rule W (stacked waiting.old) self.old
            → Building a rule (applied command W) (stacked waiting.new) self.new }
    {
        match command {
            Command::Empty => waiting.push(Part::empty()),
            Command::Symbol(codes) => {
                let at = self.give(rule, codes);
                waiting.push(Part::symbol(at));
            }
            Command::Join => {
                let b = waiting.pop().unwrap();
                let a = waiting.pop().unwrap();
                self.link(a.last, b.first);
                waiting.push(a.join(b));
            }
            Command::Either => {
                let b = waiting.pop().unwrap();
                let a = waiting.pop().unwrap();
                waiting.push(a.either(b));
            }
            Command::Star => {
                let a = waiting.pop().unwrap();
                self.link(a.last, a.first);
                waiting.push(a.optional());
            }
            Command::Plus => {
                let a = waiting.pop().unwrap();
                self.link(a.last, a.first);
                waiting.push(a);
            }
            Command::Optional => {
                let part = waiting.pop().unwrap();
                waiting.push(part.optional());
            }
        }
    }
}
