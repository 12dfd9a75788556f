// The number book as a reader sees it.
ghost use Rattle.numbers.specs.Number.{number_model};
ghost use Rattle.numbers.specs.Laws.{number_lawful};

use crate::book::NumberBook;
use crate::table::step;
use books::Book;
use states::{Rules, State};

// The last position: a state that holds it ends rule 0.
const END: u8 = 5;

// The kind of rule 0.
const KIND: u16 = 1;

// One rule that owns six positions, of which the first is the start.
impl Book for NumberBook {
    type Symbol = u8;

    ghost model = { λ b. number_model b.asked };

    ghost lawful = { λ b. number_lawful };

    fn live(&self) -> State {
        State::empty().with_range(0, END)
    }

    fn start(&self) -> State {
        State::single(0)
    }

    fn next(&mut self, state: State, symbol: u8) -> State {
        self.asked = self.asked.saturating_add(1);
        step(state, symbol)
    }

    fn ended(&self, state: State) -> Rules {
        if state.holds(END) {
            Rules::single(0)
        } else {
            Rules::empty()
        }
    }

    fn kind(&self, rule: u32) -> Option<u16> {
        (rule == 0).then_some(KIND)
    }
}
