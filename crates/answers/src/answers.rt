// One line for each answer, appended to what is there. Each fails only for want of memory. Those of a name and a number are calls
// of their own, one line each, so that callers choose the answer by name and not by its text.
ghost use Rattle.std.specs.Prelude.{map, length, codes};
ghost use Rattle.answers.specs.Texts.{Writes, change_line, cursor_line, feed_line, finish_line, kind_line, last_line, malformed_line, new_line, numbered, parted, pattern_line, read_line, refused_line, token_line};

use crate::rules::{KindText, Met};
use crate::shown::{Shown, Text};
use books::{Book, Told};
use hex::encode;
use lines::{BookName, Expected};
use reader::Token;
use states::Rules;
use std::alloc::{AllocError, Global};

// A new reader over a new book.
pub fn new_reader(out: &mut String, book: BookName, edition: u32) -> Result<(), AllocError>
    ensures { Writes result out.old out.new (new_line book edition) }
{
    writeln!(out, "new book={book} edition={edition}")
}

// An accepted change of a rule, and the new edition. The word of the command is any text: an enum of words would ask more of callers.
pub fn changed(out: &mut String, word: &str, rule: u32, edition: u32) -> Result<(), AllocError>
    ensures { Writes result out.old out.new (change_line word.now rule edition) }
{
    writeln!(out, "{word} rule={rule} edition={edition}")
}

// The rules that a text met, their kinds, and how many steps were worked out for it.
pub fn read<B: Book>(
    out: &mut String,
    book: &B,
    rules: Rules,
    count: usize,
) -> Result<(), AllocError>
    ensures { Writes result out.old out.new (read_line (B.Book.model book.now).meaning.kind rules count) }
{
    let met = Met { book, rules };
    writeln!(out, "read {met} count={count}")
}

// The cursor as it was made, and the length of its text.
pub fn cursor(out: &mut String, place: usize, length: usize) -> Result<(), AllocError>
    ensures { Writes result out.old out.new (cursor_line place length) }
{
    writeln!(out, "cursor place={place} length={length}")
}

// A token. The word of the command, which read or peeked it, is any text: an enum of words would ask more of callers.
pub fn token<B: Book>(
    out: &mut String,
    word: &str,
    book: &B,
    token: Token,
) -> Result<(), AllocError>
    ensures { Writes result out.old out.new (token_line word.now (B.Book.model book.now).meaning.kind token.place token.length token.rules token.count) }
{
    let Token {
        place,
        length,
        rules,
        count,
    } = token;
    let met = Met { book, rules };
    writeln!(
        out,
        "{word} place={place} length={length} {met} count={count}"
    )
}

// The last token read: where it begins, and its symbols.
pub fn last<S: Shown>(out: &mut String, place: usize, symbols: &[S]) -> Result<(), AllocError>
    ensures { Writes result out.old out.new (last_line (parted S.between S.one) place (length symbols.now) (map S.Symbol.code symbols.now)) }
{
    let length = symbols.len();
    let text = Text(symbols);
    writeln!(out, "last place={place} length={length} text=\"{text}\"")
}

// A new walk of this edition.
pub fn walk(out: &mut String, edition: u32) -> Result<(), AllocError>
    ensures { Writes result out.old out.new (numbered (codes "walk edition=") edition) }
{
    writeln!(out, "walk edition={edition}")
}

// Whether the step of a symbol that a walk was fed with was worked out.
pub fn fed(out: &mut String, worked: bool) -> Result<(), AllocError>
    ensures { Writes result out.old out.new (feed_line worked) }
{
    // the whole line at once, since there is one for each symbol
    let line = if worked {
        "feed worked=yes\n"
    } else {
        "feed worked=no\n"
    };
    out.push_str(line)
}

// The rules that a finished walk ended, and their kinds.
pub fn finished<B: Book>(out: &mut String, book: &B, rules: Rules) -> Result<(), AllocError>
    ensures { Writes result out.old out.new (finish_line (B.Book.model book.now).meaning.kind rules) }
{
    let met = Met { book, rules };
    writeln!(out, "finish {met}")
}

// The commands of a pattern text, as pairs of hex digits.
pub fn pattern(heap: Global, out: &mut String, commands: &[u8]) -> Result<(), AllocError>
    ensures { Writes result out.old out.new (pattern_line commands.now) }
{
    let length = commands.len();
    let digits = encode(heap, commands)?;
    writeln!(out, "pattern length={length} commands={digits}")
}

// The kind of a rule, or none where the rule is not in force.
pub fn kind(out: &mut String, rule: u32, kind: Option<u16>) -> Result<(), AllocError>
    ensures { Writes result out.old out.new (kind_line rule kind) }
{
    let kind = KindText(kind);
    writeln!(out, "kind rule={rule} kind={kind}")
}

// How many steps were worked out so far.
pub fn tally(out: &mut String, tally: u32) -> Result<(), AllocError>
    ensures { Writes result out.old out.new (numbered (codes "tally=") tally) }
{
    writeln!(out, "tally={tally}")
}

// The edition of the reader.
pub fn edition(out: &mut String, edition: u32) -> Result<(), AllocError>
    ensures { Writes result out.old out.new (numbered (codes "edition=") edition) }
{
    writeln!(out, "edition={edition}")
}

// The note of the book.
pub fn note(out: &mut String, note: u32) -> Result<(), AllocError>
    ensures { Writes result out.old out.new (numbered (codes "note=") note) }
{
    writeln!(out, "note={note}")
}

// Any refusal, in numbers.
pub fn refused(out: &mut String, told: Told) -> Result<(), AllocError>
    ensures { Writes result out.old out.new (refused_line told) }
{
    writeln!(out, "refused {told}")
}

// The report of a malformed line, by its number in the script.
pub fn malformed(out: &mut String, line: u64, expected: Expected) -> Result<(), AllocError>
    ensures { Writes result out.old out.new (malformed_line line expected) }
{
    writeln!(out, "line {line}: expected {expected}")
}
