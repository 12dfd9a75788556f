// Runs of commands: one command taken off a run, and a whole run checked.
ghost use Rattle.std.specs.Prelude.{◌≡◌};
ghost use Rattle.expressions.specs.Commands.{Behind, Decodes, read_all, counted, Judged};

use crate::code_range::CodeRange;
use crate::command::Command;
use books::{Cause, CommandFault};

// At most so many expressions wait.
pub const MOST: usize = 40;

// Checks a run of commands, over codes up to the last one, and answers how many symbols its expression has. A run that
// spells none is refused with the cause and the offset of the first command that a question stops. The last code is no part of the
// run: the same bytes may be checked over another kind of symbol.
pub fn check(bytes: &[u8], last: u16) -> Result<usize, CommandFault>
    ensures answer { result ≡ counted (read_all last bytes.now) }
    ensures judged { Judged last bytes.now result }
{
    let mut rest = bytes;
    let mut waiting = 0;
    let mut symbols = 0;
    // slice patterns take a command and what is behind it apart: the project's form for a run. The expression book's builder has
    // the loop too, over the expressions that wait themselves: an iterator over commands would count them beside it
    while let [letter, behind @ ..] = rest {
        let place = bytes.len() - rest.len();
        let (command, tail) = step(*letter, behind, last, waiting).map_err(|cause| CommandFault {
            cause,
            place,
        })?;
        waiting = waiting + 1 - command.takes();
        symbols += command.symbols();
        rest = tail;
    }
    if waiting == 1 {
        Ok(symbols)
    } else {
        Err(CommandFault {
            cause: Cause::NotOne,
            place: bytes.len(),
        })
    }
}

// Takes one command off a run: the command of the letter with the operands behind it, and what is behind those. Where so
// many expressions wait, it is refused with the cause of the first question that gets a no.
pub fn step<'a>(
    letter: u8,
    behind: &'a [u8],
    last: u16,
    waiting: usize,
) -> Result<(Command, &'a [u8]), Cause>
    ensures { Decodes last waiting letter behind.now result }
{
    // by letter, so that the questions and the commands stand in one table: the project's form, in which the letter stays a byte
    let (operands, rest) = operands(letter, behind)?;
    match (letter, operands) {
        (b'C' | b'R', Some(codes)) if !codes.is_up_to(last) => Err(Cause::Codes),
        (b'J' | b'A', _) if waiting < 2 => Err(Cause::TooFew),
        (b'S' | b'P' | b'O', _) if waiting < 1 => Err(Cause::TooFew),
        (b'E' | b'C' | b'R', _) if waiting >= MOST => Err(Cause::TooMany),
        (b'E', _) => Ok((Command::Empty, rest)),
        (b'C' | b'R', Some(codes)) => Ok((Command::Symbol(codes), rest)),
        (b'J', _) => Ok((Command::Join, rest)),
        (b'A', _) => Ok((Command::Either, rest)),
        (b'S', _) => Ok((Command::Star, rest)),
        (b'P', _) => Ok((Command::Plus, rest)),
        (b'O', _) => Ok((Command::Optional, rest)),
        _ => Err(Cause::Letter),
    }
}

// The codes behind a letter that has operands, and what is behind them. The high byte of a code stands first.
fn operands<'a>(letter: u8, behind: &'a [u8]) -> Result<(Option<CodeRange>, &'a [u8]), Cause>
    ensures { Behind letter behind.now result }
{
    match (letter, behind) {
        (b'C', [high, low, rest @ ..]) => Ok((
            Some(CodeRange::only(u16::from_be_bytes([*high, *low]))),
            rest,
        )),
        (b'R', [a, b, c, d, rest @ ..]) => Ok((
            Some(CodeRange {
                low: u16::from_be_bytes([*a, *b]),
                high: u16::from_be_bytes([*c, *d]),
            }),
            rest,
        )),
        (b'C' | b'R', _) => Err(Cause::Operands),
        _ => Ok((None, behind)),
    }
}
