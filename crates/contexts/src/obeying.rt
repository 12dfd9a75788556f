// Commands that take no text and change no rule.
ghost use Rattle.passes.specs.Runs.{Ran};
ghost use Rattle.contexts.specs.Uses.{Obeys, Wants, wanting};
ghost use Rattle.contexts.specs.Contexts.{use_of};

use crate::context::Context;
use books::Noted;
use lines::Order;
use passes::Fault;

impl<B: Noted> Context<B> {
    pub fn obey(&mut self, order: Order, out: &mut String) -> Result<(), Fault>
        ensures { Ran result use_of (Obeys order) (Wants (wanting order)) self.old self.new out.old out.new }
    {
        // A match, and no table of closures: an order is data, which a line spells, and each arm calls with arguments of its own.
        match order {
            Order::Token => self.token(out),
            Order::Peek => self.peek(out),
            Order::Walk => Ok(self.begin(out)?),
            Order::Finish => self.finish(out),
            Order::Kind(rule) => Ok(answers::kind(out, rule, self.reader.kind(rule))?),
            Order::Tally => Ok(answers::tally(out, self.reader.tally())?),
            Order::Edition => Ok(answers::edition(out, self.reader.edition())?),
            Order::Note => Ok(answers::note(out, self.reader.book().note())?),
        }
    }
}
