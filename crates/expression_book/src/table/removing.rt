// Taking a rule out of the table.
ghost use Rattle.std.specs.Prelude.{◌≡◌, ℕ, true, false, length};
ghost use Rattle.states.specs.Sets.{has};
ghost use Rattle.expression_book.specs.Rows.{blank, row};
ghost use Rattle.expression_book.specs.Tables.{owns, Removes};

use crate::row::Row;
use crate::table::{RULES, Table};
use books::Rule;
use states::State;

impl Table {
    // Takes a rule out of force and frees its positions.
    pub(crate) fn remove(&mut self, rule: Rule<RULES>)
        ensures { Removes rule.number self.old self.new }
    {
        let gone = self.positions(rule.number);
        self.kinds.remove(rule);
        self.live = self.live.without(gone);
        self.start = self.start.without(gone);
        self.ends = self.ends.without(gone);
        clear(&mut self.rows, gone);
    }

    // The positions of a rule.
    fn positions(&self, rule: u8) -> State
        ensures { (p : ℕ) → has result p ≡ owns self.now rule p }
    {
        let mut out = State::empty();
        for p in self.live.members() {
            if self.rows[p as usize].rule == rule {
                out = out.with(p);
            }
        }
        out
    }
}

// Makes the rows of the positions blank, and touches these alone: rows go by position, where the template book's table goes by code
// and is gone through whole.
fn clear(rows: &mut [Row; 256], gone: State)
    ensures size { length rows.new ≡ 256 }
    ensures cleared { (p : ℕ) → has gone p ≡ true → row rows.new p ≡ blank }
    ensures kept { (p : ℕ) → has gone p ≡ false → row rows.new p ≡ row rows.old p }
{
    for p in gone.members() {
        rows[p as usize] = Row::blank();
    }
}
