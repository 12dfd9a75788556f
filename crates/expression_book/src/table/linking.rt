// The two ways in which the table grows: a position for a symbol, and followers for positions.
ghost use Rattle.std.specs.Prelude.{◌≡◌, ℕ, ◌<◌, true, false, not, length, is_some};
ghost use Rattle.states.specs.Words.{Least};
ghost use Rattle.states.specs.Sets.{has, size};
ghost use Rattle.expression_book.specs.Rows.{row, Gains};
ghost use Rattle.expression_book.specs.Tables.{table_meaning};
ghost use Rattle.expression_book.specs.Building.{Gives, Links};

use crate::row::Row;
use crate::table::Table;
use expressions::CodeRange;
use states::State;

impl Table {
    // Lets the positions of `first` follow those of `last`, which are of one rule.
    pub(crate) fn link(&mut self, last: State, first: State)
        requires live { (p q : ℕ) → has last p ≡ true → has first q ≡ true → has self.old.live p ≡ true }
        requires follows { (p q : ℕ) → has last p ≡ true → has first q ≡ true → has self.old.live q ≡ true }
        requires together { (p q : ℕ) → has last p ≡ true → has first q ≡ true → (row self.old.rows q).rule ≡ (row self.old.rows p).rule }
        ensures { Links last first self.old self.new }
    {
        link(&mut self.rows, last, first);
    }

    // Gives the rule the lowest free position, for a symbol with these codes. That the rule is in force is asked in a clause: a type
    // that says so would hold the table by `&mut` beside a ghost field, for which Rattle makes no proof.
    pub(crate) fn give(&mut self, rule: u8, codes: CodeRange) -> u8
        requires force { is_some ((table_meaning self.old).kind rule) ≡ true }
        requires free { size self.old.live < 256 }
        ensures { Gives rule codes result self.old self.new }
    {
        let at = lowest_free(self.live);
        self.live = self.live.with(at);
        self.rows[at as usize] = Row {
            rule,
            codes,
            follow: State::empty(),
        };
        at
    }
}

// The lowest position that is not live.
fn lowest_free(live: State) -> u8
    requires { size live < 256 }
    ensures { Least (λ q. not (has live q)) result }
{
    State::full().without(live).lowest().unwrap()
}

// Lets the positions of `first` follow those of `last`. Touches the rows of `last` alone.
fn link(rows: &mut [Row; 256], last: State, first: State)
    ensures size { length rows.new ≡ 256 }
    ensures linked { (p : ℕ) → has last p ≡ true → Gains first (row rows.old p) (row rows.new p) }
    ensures kept { (p : ℕ) → has last p ≡ false → row rows.new p ≡ row rows.old p }
{
    for p in last.members() {
        let row = &mut rows[p as usize];
        row.follow = row.follow.union(first);
    }
}
