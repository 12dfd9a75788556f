// The commands of a class: its longest runs of bytes.
ghost use Rattle.std.specs.Prelude.{◌≡◌, ◌∷◌, ◌-◌, ◌<◌, reverse};
ghost use Rattle.std.specs.Iterator.{YieldsFirst, item_count};
ghost use Rattle.patterns.specs.Classes.{runs_left};
ghost use Rattle.patterns.specs.Buffers.{Adds};
ghost use Rattle.patterns.specs.Reading.{ClassPut, runs_written, written, ranged};

use crate::classes::class_bytes;
use crate::faults::PatternFault;
use crate::sink::Sink;
use crate::text::Text;
use states::State;

// Bytes from low to high. No range of the library's: that one also keeps whether it is used up. No `CodeRange`: its codes may be more
// than a byte, which each clause here would have to deny.
#[derive(Clone, Copy)]
pub(crate) struct Run {
    pub(crate) low: u8,
    pub(crate) high: u8,
}

impl Run {
    // The command of a symbol from low to high.
    fn command(self) -> [u8; 5]
        ensures { result ≡ written (ranged self) }
    {
        [b'R', 0, self.low, 0, self.high]
    }
}

// The longest runs of the bytes in a set, the lowest first.
#[derive(Drop)]
pub(crate) struct Runs(pub(crate) State);

impl Iterator for Runs {
    type Item = Run;

    ghost next_gives = { YieldsFirst runs_left };

    ghost remaining = { item_count runs_left };

    fn next(&mut self) -> Option<Run> {
        let low = self.0.pop_lowest()?;
        let mut high = low;
        // a `while`, since the run ends where a byte is missing: an iterator over the members would take one more, and a `for` over
        // the bytes would hold the same test and a `break`
        while high < 255 && self.0.holds(high + 1) {
            high += 1;
            self.0 = self.0.without(State::single(high));
        }
        Some(Run { low, high })
    }
}

// Puts the commands of the class with this body, which begins behind its '[', into the sink.
pub(crate) fn put_class(body: Text, sink: &mut Sink) -> Result<(), PatternFault>
    requires { 0 < body.place }
    ensures { ClassPut (body.entry.place - 1) body.entry.bytes.now sink.old sink.new result }
{
    let mut runs = Runs(class_bytes(body)?);
    let first = runs.next().ok_or(PatternFault::EmptyClass(body.place - 1))?;
    put_runs(first, runs, sink);
    Ok(())
}

// Puts the commands of the runs into the sink, with A behind each but the first.
fn put_runs(first: Run, others: Runs, sink: &mut Sink)
    ensures { Adds sink.old (runs_written (reverse (first ∷ runs_left others))) sink.new }
{
    sink.extend(&first.command());
    for run in others {
        sink.extend(&run.command());
        sink.push(b'A');
    }
}
