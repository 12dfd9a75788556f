// What a program does with a script: it reads the text, runs every line, and writes the answers and reports.
ghost use Rattle.std.specs.Prelude.{◌≡◌, ◌≢◌, IfOk, IfSome, None as Nothing, OnOk, not};
ghost use Rattle.passes.specs.Scripts.{AppendsKnown, Goes};
ghost use Rattle.passes.specs.Places.{place_of};

use crate::runner::LineRunner;
use crate::script::Script;
use std::alloc::{AllocError, Global};
use std::io::{Read, Write};
use std::{fs, io};
use thiserror::Error;

// Why a script was not run to its end.
#[derive(Debug, Drop, Error)]
pub enum Stopped {
    #[error(transparent)]
    NoMemory(#[from(alloc)] AllocError),
    #[error(transparent)]
    Io(#[from] io::Error),
}

// The text of the file at `path`, of which no clause can say what it holds; or, without a path, all that is left of `input`.
pub fn script_text<R: Read>(
    rt: &HostRuntime,
    path: Option<&str>,
    input: &mut R,
) -> io::Result<Vec<u8>>
    ensures input { path.entry ≡ Nothing → IfOk result (λ text. IfSome (R.remaining input.old) (λ left. text.items ≡ left)) }
    ensures file { path.entry ≢ Nothing → input.new ≡ input.old }
{
    if let Some(path) = path {
        return fs::read(rt, path);
    }
    let mut text = Vec::new(rt.alloc());
    input.read_to_end(&mut text)?;
    Ok(text)
}

impl<'s, S: LineRunner> Script<'s, S> {
    // Passes every line that is left, and says whether each line that was ever passed was well formed. Answers are written
    // to `out` before the report that follows them is written to `errors`.
    pub fn run_all<O: Write, E: Write>(
        &mut self,
        heap: Global,
        out: &mut O,
        errors: &mut E,
    ) -> Result<bool, Stopped>
        ensures end { OnOk result ((place_of S.seen self.new).rest ≡ Nothing) }
        ensures well { IfOk result (λ well. well ≡ not (place_of S.seen self.new).malformed) }
        ensures goes { OnOk result (AppendsKnown (Goes S.Runs S.Unfit (place_of S.seen self.old) (place_of S.seen self.new))
            (O.contents out.old) (O.contents out.new) (E.contents errors.old) (E.contents errors.new)) }
    {
        let mut answers = String::new(heap);
        let mut reports = String::new(heap);
        loop {
            let more = self.run(heap, &mut answers, &mut reports)?;
            out.write_all(answers.as_bytes())?;
            errors.write_all(reports.as_bytes())?;
            if !more {
                return Ok(!self.is_malformed());
            }
            answers.clear();
            reports.clear();
        }
    }
}
