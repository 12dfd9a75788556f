// What runs one line.
ghost use Rattle.std.specs.Prelude.{ℕ, List};
ghost use Rattle.lines.specs.declared.command.Expected.{Expected as Wanted};
ghost use Rattle.passes.specs.Runs.{Ran};

use crate::fault::Fault;
use std::alloc::Global;

pub trait LineRunner: Drop {
    // what callers see of a runner
    ghost Seen: { Type 0 };

    ghost seen: { Self → Seen };

    // a line is run, which turns what is seen, and is answered
    ghost Runs: { List ℕ → Seen → Seen → List ℕ → Type 0 };

    // what is expected of a line that cannot be run
    ghost Unfit: { List ℕ → Seen → Wanted → Type 0 };

    // Runs one line that is no comment, and appends its answer. A line that cannot be run changes nothing; where there is no
    // memory, the answer may be written in part.
    fn run_line(&mut self, heap: Global, line: &[u8], out: &mut String) -> Result<(), Fault>
        ensures { Ran result seen (Runs line.now) (Unfit line.now) self.old self.new out.old out.new };
}
