// The expression book as a reader sees it.
ghost use Rattle.expression_book.specs.Tables.{book_model};
ghost use Rattle.expression_book.specs.Laws.{table_lawful};

use crate::book::ExpressionBook;
use books::Book;
use states::{Rules, State};
use symbols::Symbol;

// A step joins the followers of the state's positions that take the symbol.
impl<S: Symbol> Book for ExpressionBook<S> {
    type Symbol = S;

    ghost model = { book_model };

    ghost lawful = { λ b. table_lawful b.table };

    fn live(&self) -> State {
        self.table.live
    }

    fn start(&self) -> State {
        self.table.start
    }

    // Costs a few steps for each position of the state.
    fn next(&mut self, state: State, symbol: S) -> State {
        self.table.asked = self.table.asked.saturating_add(1);
        self.table.next(state, symbol.code())
    }

    fn ended(&self, state: State) -> Rules {
        self.table.ended(state)
    }

    fn kind(&self, rule: u32) -> Option<u16> {
        self.table.kinds.get(rule)
    }
}
