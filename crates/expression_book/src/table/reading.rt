// What the table answers.
ghost use Rattle.std.specs.Prelude.{◌≡◌};
ghost use Rattle.expression_book.specs.Tables.{table_meaning};

use crate::table::Table;
use states::{Rules, State};

impl Table {
    // The followers of the state's positions that take the code. Touches these positions alone.
    pub(crate) fn next(&self, state: State, code: u16) -> State
        ensures { result ≡ (table_meaning self.now).next state code }
    {
        // loops as in `states::follow`, which says why
        let mut out = State::empty();
        for p in state.members() {
            out = out.union(self.rows[p as usize].after(code));
        }
        out
    }

    // The rules whose end the state holds.
    pub(crate) fn ended(&self, state: State) -> Rules
        ensures { result ≡ (table_meaning self.now).ended state }
    {
        let met = state.meet(self.ends);
        let mut out = Rules::empty();
        for p in met.members() {
            out = out.union(Rules::single(self.rows[p as usize].rule));
        }
        out
    }
}
