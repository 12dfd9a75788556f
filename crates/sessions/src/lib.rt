// A session runs the lines of a script, one after the other, over the book that they ask for.
#![tactic(auto)]

mod session;

pub use passes::{LineRunner, Script};
pub use session::Session;

#[cfg(test)]
mod tests {
    use crate::{Script, Session};
    use books::{BookFault, Refusal};
    use lines::BookName;
    use numbers::NumberBook;
    use passes::script_text;
    use states::Rules;
    use std::test::Fail;

    // Six lines cannot be run: they spell no command, or want what is not there. Each is reported by its number, and the
    // lines behind it are run as if it were not there.
    #[test]
    fn reports_malformed_lines_and_goes_on(rt: HostRuntime) -> Result<(), Fail> {
        let heap = rt.alloc();
        let text =
            b"read 12.5mm\n\nreed 4800mm\ntally\nnew numbers 4294967296\nadd 0 1 k#\ntoken\nkind\nfeed 1\nread \n# end\nedition";
        let mut script = Script::new(Session::new(heap, BookName::Numbers, 3)?, text);
        let mut out = String::new(heap);
        let mut errors = String::new(heap);
        for _ in 0..12 {
            script.run(heap, &mut out, &mut errors)?;
        }
        assert_eq!(rt;
            out.as_str(),
            "read rules=0 kinds=1 count=6\ntally=6\nread rules=- kinds=- count=0\nedition=3\n"
        );
        assert_eq!(rt;
            errors.as_str(),
            "line 3: expected a command\nline 5: expected an edition from 0 to 4294967295\nline 6: expected a book whose rules can be changed\nline 7: expected a cursor\nline 8: expected a decimal number\nline 9: expected a walk\n"
        );
        assert!(rt; script.is_malformed());
        Ok(())
    }

    // A space is enough of an argument for an empty text, and a comment is no line to report.
    #[test]
    fn reads_an_empty_text(rt: HostRuntime) -> Result<(), Fail> {
        let heap = rt.alloc();
        let mut script = Script::new(
            Session::new(heap, BookName::Numbers, 0)?,
            b"# nothing\nread \nreadx \n",
        );
        let mut out = String::new(heap);
        let mut errors = String::new(heap);
        assert!(rt; !script.run(heap, &mut out, &mut errors)?);
        assert_eq!(rt;
            out.as_str(),
            "read rules=- kinds=- count=0\nread rules=- kinds=- count=0\n"
        );
        assert!(rt; !script.is_malformed());
        Ok(())
    }

    // All answers and all reports are written, over as many turns as the malformed lines ask for.
    #[test]
    fn writes_all_answers_and_reports(rt: HostRuntime) -> Result<(), Fail> {
        let heap = rt.alloc();
        let mut script = Script::new(
            Session::new(heap, BookName::Numbers, 3)?,
            b"tally\nreed\nkind\nedition",
        );
        let mut out = Vec::new(heap);
        let mut errors = Vec::new(heap);
        assert!(rt; !script.run_all(heap, &mut out, &mut errors)?);
        assert_eq!(rt; out.as_slice(), b"tally=0\nedition=3\n".as_slice());
        assert_eq!(rt;
            errors.as_slice(),
            b"line 2: expected a command\nline 3: expected a decimal number\n".as_slice()
        );
        Ok(())
    }

    // Without a path the script is what is left of the input.
    #[test]
    fn reads_a_script_from_its_input(rt: HostRuntime) -> Result<(), Fail> {
        let mut input: &[u8] = b"tally\n";
        let text = script_text(&rt, None, &mut input)?;
        assert_eq!(rt; text.as_slice(), b"tally\n".as_slice());
        Ok(())
    }

    #[test]
    fn lists_rules_and_tells_refusals(rt: HostRuntime) -> Result<(), Fail> {
        let mut out = String::new(rt.alloc());
        let rules = Rules::single(63)
            .union(Rules::single(0))
            .union(Rules::single(7));
        answers::read(&mut out, &NumberBook::new(), rules, 2)?;
        answers::refused(&mut out, Refusal::Book(BookFault::Absent).tell())?;
        assert_eq!(rt;
            out.as_str(),
            "read rules=0,7,63 kinds=1,-,- count=2\nrefused number=13 layer=2 place=0 count=0\n"
        );
        Ok(())
    }
}
