// What is done with a text.
ghost use Rattle.std.specs.Prelude.{◌≡◌, ◌-◌, map, take, drop};
ghost use Rattle.answers.specs.Texts.{last_line, parted};
ghost use Rattle.passes.specs.Runs.{Ran};
ghost use Rattle.contexts.specs.Uses.{Shows, Takes, Wants, wanting_cursor, wanting_for};
ghost use Rattle.contexts.specs.Contexts.{use_of};

use crate::context::{Context, Track};
use answers::Shown;
use books::Book;
use lines::{Expected, Task};
use passes::Fault;
use std::alloc::Global;

impl<B: Book> Context<B> {
    pub fn take(
        &mut self,
        heap: Global,
        task: Task,
        text: &[B::Symbol],
        out: &mut String,
    ) -> Result<(), Fault>
        ensures { Ran result use_of (Takes task (map B.Symbol.Symbol.code text.now)) (Wants (wanting_for task)) self.old self.new out.old out.new }
    {
        // A match, and no closure: a task is data, which a line spells, and what each arm needs of the text differs.
        match task {
            Task::Read => Ok(self.read(text, out)?),
            Task::Cursor(place) => {
                let copy = Vec::from_slice(heap, text)?;
                Ok(self.place(copy, place as usize, out)?)
            }
            Task::Feed => self.feed(text, out),
        }
    }
}

impl<B: Book> Context<B>
where
    B::Symbol: Shown,
{
    // Shows the last token of the cursor.
    pub fn last(&self, out: &mut String) -> Result<(), Fault>
        ensures { Ran result use_of (Shows (last_line (parted B.Symbol.Shown.between B.Symbol.Shown.one))) (Wants wanting_cursor) self.now self.now out.old out.new }
    {
        let track = self.cursor.as_ref().ok_or(Expected::Cursor)?;
        Ok(answers::last(out, track.from, track.part())?)
    }
}

impl<S> Track<S> {
    // The part of the text that was the last token.
    fn part(&self) -> &[S]
        ensures { result.now ≡ take (self.now.to - self.now.from) (drop self.now.from self.now.text.items) }
    {
        let text = self.text.as_slice();
        &text[self.from..self.to]
    }
}
