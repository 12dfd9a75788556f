// Runs a script over any book, one command to a line: from the file that the first argument names, or else from standard input.
#![tactic(auto)]

use lines::BookName;
use passes::script_text;
use sessions::{Script, Session};
use std::env;
use std::process::ExitCode;

// What can be stated of a program is `passes`'.
// Status 1 for a malformed line, which is reported by then, and for a script that cannot be read.
fn main(rt: HostRuntime) -> anyhow::Result<ExitCode> {
    let heap = rt.alloc();
    let mut args = env::args(&rt)?;
    let _program = args.next();
    let path = args.next();
    let text = script_text(&rt, path.as_deref(), &mut rt.stdin())?;
    let session = Session::new(heap, BookName::Expressions, 0)?;
    let mut script = Script::new(session, text.as_slice());
    if script.run_all(heap, &mut rt.stdout(), &mut rt.stderr())? {
        Ok(ExitCode::SUCCESS)
    } else {
        Ok(ExitCode::FAILURE)
    }
}
