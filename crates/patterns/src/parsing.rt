// The grammar of pattern texts: choice, sequence, piece and atom call each other on what is left of the text, and put their
// commands into a sink.
ghost use Rattle.std.specs.Prelude.{◌≡◌, false, MatchOption, IfOk, None};
ghost use Rattle.patterns.specs.Parsing.{stops, begins, Behind, sign_at, Pieced, Sequenced, Chosen};

use crate::faults::PatternFault;
use crate::marks::{Mark, Repeat, first_mark};
use crate::runs::put_class;
use crate::sink::Sink;
use crate::text::Text;

// At most so many brackets are open.
const MOST_OPEN: usize = 16;

// A choice: sequences parted by '|', with A behind each but the first. It ends at the text's end or at ')'.
#[cycle(parsing)]
pub(crate) fn choice<'t>(
    text: Text<'t>,
    depth: usize,
    sink: &mut Sink,
) -> Result<Text<'t>, PatternFault>
    ensures { Chosen depth text.entry sink.old sink.new result }
{
    let mut rest = sequence(text, depth, sink)?;
    while let Some(behind) = behind(rest, b'|') {
        rest = sequence(behind, depth, sink)?;
        sink.push(b'A');
    }
    Ok(rest)
}

// A sequence: pieces, with J behind each but the first; no piece gives E.
#[cycle(parsing)]
fn sequence<'t>(text: Text<'t>, depth: usize, sink: &mut Sink) -> Result<Text<'t>, PatternFault>
    ensures { Sequenced depth text.entry sink.old sink.new result }
{
    if ends(text) {
        sink.push(b'E');
        return Ok(text);
    }
    let mut rest = piece(text, depth, sink)?;
    while !ends(rest) {
        rest = piece(rest, depth, sink)?;
        sink.push(b'J');
    }
    Ok(rest)
}

// A piece: an atom and the signs behind it that repeat, each with its letter.
#[cycle(parsing)]
fn piece<'t>(text: Text<'t>, depth: usize, sink: &mut Sink) -> Result<Text<'t>, PatternFault>
    requires { stops text.bytes.now ≡ false }
    ensures read { Pieced depth text.entry sink.old sink.new result }
    ensures whole { IfOk result (λ rest. sign_at rest.bytes.now ≡ None) }
{
    let mut rest = atom(text, depth, sink)?;
    while let Some(repeat) = repeat_at(rest) {
        sink.push(repeat.letter());
        rest = rest.skip(1);
    }
    Ok(rest)
}

// An atom: a byte, an escape, '.', a class, or a choice in brackets.
#[cycle(parsing)]
fn atom<'t>(text: Text<'t>, depth: usize, sink: &mut Sink) -> Result<Text<'t>, PatternFault>
    requires { stops text.bytes.now ≡ false }
    ensures { Pieced depth text.entry sink.old sink.new result }
{
    let (mark, rest) = first_mark(text)?;
    match mark {
        Mark::Byte(b'{' | b'}' | b']') => Err(PatternFault::Reserved(text.place)),
        Mark::Byte(byte) | Mark::Escape(byte) => {
            sink.extend(&[b'C', 0, byte]);
            Ok(rest)
        }
        Mark::Class(body) => {
            put_class(body, sink)?;
            Ok(rest)
        }
        Mark::Sign('.') => {
            sink.extend(&[b'R', 0, 0, 0, 255]);
            Ok(rest)
        }
        Mark::Sign('(') if depth < MOST_OPEN => {
            let inner = choice(rest, depth + 1, sink)?;
            behind(inner, b')').ok_or(PatternFault::Unbalanced(text.place))
        }
        Mark::Sign('(') => Err(PatternFault::TooDeep(text.place)),
        // '*', '+' or '?': a sequence ends at the others
        Mark::Sign(_) => Err(PatternFault::NoAtom(text.place)),
    }
}

// Whether a sequence ends here: at the text's end, at '|' or at ')'.
fn ends(text: Text) -> bool
    ensures { result ≡ stops text.entry.bytes.now }
{
    matches!(text.bytes, [] | [b'|' | b')', ..])
}

// What is behind the byte, where it stands at the front.
fn behind<'t>(text: Text<'t>, byte: u8) -> Option<Text<'t>>
    ensures { MatchOption result (begins text.entry.bytes.now byte ≡ false) (Behind text.entry byte) }
{
    match text.bytes {
        [first, ..] if *first == byte => Some(text.skip(1)),
        _ => None,
    }
}

// How the sign at the front repeats, if it does.
fn repeat_at(text: Text) -> Option<Repeat>
    ensures { result ≡ sign_at text.entry.bytes.now }
{
    let sign = text.bytes.first()?;
    Repeat::try_from(char::from(*sign)).ok()
}
