// The walk that commands work on.
ghost use Rattle.std.specs.Prelude.{◌≡◌, true, false, map, string_bytes, MatchResult};
ghost use Rattle.passes.specs.Runs.{Answers, Done, Misses, Ran};
ghost use Rattle.contexts.specs.Uses.{Begins, Feeds, FeedsNext, Finishes, Wants, wanting_walk};
ghost use Rattle.contexts.specs.Contexts.{use_of};

use crate::context::Context;
use books::Book;
use lines::Expected;
use passes::Fault;
use std::alloc::AllocError;

impl<B: Book> Context<B> {
    // Begins a walk in the place of the one in use.
    pub(crate) fn begin(&mut self, out: &mut String) -> Result<(), AllocError>
        ensures { Done result use_of Begins self.old self.new out.old out.new }
    {
        let walk = self.reader.begin();
        let edition = self.reader.edition();
        self.walk = Some(walk);
        answers::walk(out, edition)
    }

    // Feeds the walk with symbols in turn, until the first refusal.
    pub(crate) fn feed(&mut self, text: &[B::Symbol], out: &mut String) -> Result<(), Fault>
        ensures { Ran result use_of (Feeds (map B.Symbol.Symbol.code text.now)) (Wants wanting_walk) self.old self.new out.old out.new }
    {
        self.walk.as_ref().ok_or(Expected::Walk)?;
        for symbol in text {
            if !self.feed_next(*symbol, out)? {
                return Ok(());
            }
        }
        Ok(())
    }

    // Feeds the walk with one symbol, and says whether it went on: a truth value, since its loop asks for no more.
    fn feed_next(&mut self, symbol: B::Symbol, out: &mut String) -> Result<bool, Fault>
        ensures { MatchResult result
            (λ on. Answers (FeedsNext (B.Symbol.Symbol.code symbol) on (use_of self.old) (use_of self.new)) (string_bytes out.old) (string_bytes out.new))
            (λ f. Misses (Wants wanting_walk (use_of self.old)) f self.old self.new (string_bytes out.old) (string_bytes out.new)) }
    {
        let walk = self.walk.take().ok_or(Expected::Walk)?;
        match self.reader.feed(walk, symbol) {
            Ok(fed) => {
                self.walk = Some(fed.walk);
                answers::fed(out, fed.worked)?;
                Ok(true)
            }
            Err(back) => {
                self.walk = Some(back.walk);
                answers::refused(out, back.refusal.tell())?;
                Ok(false)
            }
        }
    }

    // Finishes the walk, which is gone then, unless it is refused.
    pub(crate) fn finish(&mut self, out: &mut String) -> Result<(), Fault>
        ensures { Ran result use_of Finishes (Wants wanting_walk) self.old self.new out.old out.new }
    {
        let walk = self.walk.take().ok_or(Expected::Walk)?;
        match self.reader.finish(walk) {
            Ok(rules) => Ok(answers::finished(out, self.reader.book(), rules)?),
            Err(back) => {
                self.walk = Some(back.walk);
                Ok(answers::refused(out, back.refusal.tell())?)
            }
        }
    }
}
