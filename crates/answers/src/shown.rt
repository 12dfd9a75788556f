// Symbols of a text, shown so that each can be told on a terminal.
ghost use Rattle.std.specs.Prelude.{◌≡◌, ℕ, List, [], map, codes, Some};
ghost use Rattle.answers.specs.Texts.{event_text, parted, plain, shown_byte};

use std::fmt;
use symbols::{Event, Symbol};

// A kind of symbol that an answer can show.
pub trait Shown: Symbol {
    // A symbol as it is printed.
    type Piece: fmt::Display + Drop;

    // what a symbol of this code is shown as
    ghost one: { ℕ → List ℕ };

    // what stands between two symbols
    ghost between: { List ℕ };

    fn piece(self) -> Self::Piece
        ensures { Self.Piece.output result ≡ Some (one (Self.code self)) };

    fn between() -> &'static str
        ensures { result.now ≡ between };
}

// Bytes stand one after the other.
impl Shown for u8 {
    type Piece = ShownByte;

    ghost one = { shown_byte };

    ghost between = { [] };

    fn piece(self) -> ShownByte {
        ShownByte(self)
    }

    fn between() -> &'static str {
        ""
    }
}

// Events are words, with a space between them.
impl Shown for Event {
    type Piece = Event;

    ghost one = { event_text };

    ghost between = { codes " " };

    fn piece(self) -> Event {
        self
    }

    fn between() -> &'static str {
        " "
    }
}

// A byte as it stands where it is printable, else as \x and two hex digits; so are the quotation mark and the backslash.
#[derive(Clone, Copy)]
pub struct ShownByte(u8);

impl fmt::Display for ShownByte {
    ghost output = { λ b. Some (shown_byte b.0) };

    fn fmt<W: fmt::Write>(&self, f: &mut fmt::Formatter<W>) -> fmt::Result {
        let byte = self.0;
        if is_plain(byte) {
            let itself = char::from(byte);
            write!(f, "{itself}")
        } else {
            write!(f, "\\x{byte:02x}")
        }
    }
}

fn is_plain(byte: u8) -> bool
    ensures { result ≡ plain byte }
{
    byte >= b' ' && byte <= b'~' && byte != b'"' && byte != b'\\'
}

// The symbols of a text.
#[derive(Clone, Copy)]
pub(crate) struct Text<'a, S>(pub(crate) &'a [S]);

impl<S: Shown> fmt::Display for Text<'_, S> {
    ghost output = { λ t. Some (parted S.between S.one (map S.Symbol.code t.0.now)) };

    fn fmt<W: fmt::Write>(&self, f: &mut fmt::Formatter<W>) -> fmt::Result {
        let [first, rest @ ..] = self.0 else {
            return Ok(());
        };
        let first = first.piece();
        write!(f, "{first}")?;
        let between = S::between();
        for symbol in rest {
            let next = symbol.piece();
            write!(f, "{between}{next}")?;
        }
        Ok(())
    }
}
