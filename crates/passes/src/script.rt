// A script and how far it was run.
ghost use Rattle.std.specs.Prelude.{◌≡◌, ◌<◌, true, false, is_some, IfOk, Some, string_bytes, OnOk};
ghost use Rattle.passes.specs.Scripts.{Appends, GoesToReport, Passes, left};
ghost use Rattle.passes.specs.Places.{place_of};

use crate::fault::Fault;
use crate::runner::LineRunner;
use lines::{NEWLINE, Parted, is_skipped, part};
use std::alloc::{AllocError, Global};

// With so many bytes of answers a program stops to write them.
const FULL: usize = 65536;

// The lines that are left, if any, how many were passed, and whether one of those was malformed.
#[derive(Drop)]
pub struct Script<'s, S> {
    runner: S,
    rest: Option<&'s [u8]>,
    line: u64,
    malformed: bool,
}

impl<'s, S: LineRunner> Script<'s, S> {
    // A script of which no line was passed.
    pub fn new(runner: S, text: &'s [u8]) -> Script<'s, S>
        ensures { place_of S.seen result ≡ record { here = S.seen runner; rest = Some text.now; line = 0; malformed = false } }
    {
        Script {
            runner,
            rest: Some(text),
            line: 0,
            malformed: false,
        }
    }

    // Whether a line that was passed could not be run.
    pub fn is_malformed(&self) -> bool
        ensures { result ≡ (place_of S.seen self.now).malformed }
    {
        self.malformed
    }

    // Passes the lines that are left, until one is malformed or `out` is full, and says whether some are left then. Answers
    // are appended to `out`, reports of malformed lines to `errors`. `heap`, `out` and `errors` are no struct: the clauses speak
    // of each text by itself, old and new, and of no `heap`.
    pub fn run(
        &mut self,
        heap: Global,
        out: &mut String,
        errors: &mut String,
    ) -> Result<bool, AllocError>
        ensures rest { IfOk result (λ more. more ≡ is_some (place_of S.seen self.new).rest) }
        ensures less { IfOk result (λ more. more ≡ true → left (place_of S.seen self.new).rest < left (place_of S.seen self.old).rest) }
        ensures goes { OnOk result (Appends (GoesToReport S.Runs S.Unfit (place_of S.seen self.old) (place_of S.seen self.new))
            (string_bytes out.old) (string_bytes out.new) (string_bytes errors.old) (string_bytes errors.new)) }
    {
        while let Some(script) = self.rest {
            self.pass(heap, script, out, errors)?;
            if out.len() >= FULL || !errors.is_empty() {
                return Ok(self.rest.is_some());
            }
        }
        Ok(false)
    }

    // Passes one line of what is left.
    fn pass(
        &mut self,
        heap: Global,
        script: &'s [u8],
        out: &mut String,
        errors: &mut String,
    ) -> Result<(), AllocError>
        requires { (place_of S.seen self.old).rest ≡ Some script.now }
        ensures { OnOk result (Appends (Passes S.Runs S.Unfit (place_of S.seen self.old) (place_of S.seen self.new))
            (string_bytes out.old) (string_bytes out.new) (string_bytes errors.old) (string_bytes errors.new)) }
    {
        let Parted { first, rest } = part(script, NEWLINE);
        self.rest = rest;
        self.line = self.line.saturating_add(1);
        if is_skipped(first) {
            return Ok(());
        }
        match self.runner.run_line(heap, first, out) {
            Ok(()) => Ok(()),
            Err(Fault::Malformed(expected)) => {
                self.malformed = true;
                answers::malformed(errors, self.line, expected)
            }
            // No `?` gives this error: `NoMemory` holds none, as it may come of digits, whose decoder hands none on.
            Err(Fault::NoMemory) => Err(AllocError),
        }
    }
}
