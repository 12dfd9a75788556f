// The template book as a reader sees it.
ghost use Rattle.templates.specs.Templates.{template_model};
ghost use Rattle.templates.specs.Laws.{template_lawful};

use crate::book::TemplateBook;
use crate::table::SPAN;
use books::Book;
use states::{Rules, State};

// A step matches one more byte of all templates at once, by a shift.
impl Book for TemplateBook {
    type Symbol = u8;

    ghost model = { λ b. template_model b.kinds.by_rule b.takes b.ends b.asked };

    ghost lawful = { λ b. template_lawful b };

    fn live(&self) -> State {
        self.live
    }

    fn start(&self) -> State {
        self.start
    }

    fn next(&mut self, state: State, symbol: u8) -> State {
        self.asked = self.asked.saturating_add(1);
        state.meet(self.takes[symbol as usize]).raised()
    }

    fn ended(&self, state: State) -> Rules {
        // a loop as in `states::follow`, which says why
        let mut out = Rules::empty();
        for p in state.meet(self.ends).members() {
            out = out.union(Rules::single(p / SPAN));
        }
        out
    }

    fn kind(&self, rule: u32) -> Option<u16> {
        self.kinds.get(rule)
    }
}
