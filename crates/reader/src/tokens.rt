ghost use Rattle.std.specs.Prelude.{◌≡◌, ℕ, ◌+◌, ◌≤◌, List, map, length, MatchResult};
ghost use Rattle.readings.specs.Readings.{Reads, ReadsAsMeant};
ghost use Rattle.readings.specs.Readings.Reading.{token, peek};
ghost use Rattle.readings.specs.Calls.{Does};
ghost use Rattle.readings.specs.Calls.Call.{read as reads};
ghost use Rattle.reader.specs.View.{view};
ghost use Rattle.reader.specs.Answers.{token_told, token_count};
ghost use Rattle.reader.specs.Cursors.{codes_of, Moved, Unmoved};

use crate::answer::Token;
use crate::cursor::Cursor;
use crate::reader::Reader;
use books::{Book, Refusal};

// Puts a place back where it was, at the end of a peek, whichever way it ends: the project's form, by a guard over the plain place.
struct PutBack<'p> {
    place: &'p mut usize,
    was: usize,
}

impl Drop for PutBack<'_> {
    fn drop(self)
        ensures { self.exit.0.now ≡ self.entry.was }
    {
        *self.place = self.was;
        let PutBack { place: _, was: _ } = self;
    }
}

impl<B: Book> Reader<B> {
    // Looks for the longest token at a place of a text, and moves the place to its end. The place is lent, since a peek's guard
    // borrows it too; each fact stands for a token and for a peek, since each of the two calls cites its own.
    fn advance(&mut self, text: &[B::Symbol], place: &mut usize) -> Result<Token, Refusal>
        requires { place.old ≤ length text.now }
        ensures read_token { Reads (token (map B.Symbol.Symbol.code text.now) place.old) (token_told result) (token_count result) (view self.old) (view self.new) }
        ensures peeked { Reads (peek (map B.Symbol.Symbol.code text.now) place.old) (token_told result) (token_count result) (view self.old) (view self.new) }
        ensures token_meant { ReadsAsMeant (token (map B.Symbol.Symbol.code text.now) place.old) (token_told result) (token_count result) (view self.old) (view self.new) }
        ensures peek_meant { ReadsAsMeant (peek (map B.Symbol.Symbol.code text.now) place.old) (token_told result) (token_count result) (view self.old) (view self.new) }
        ensures moves { MatchResult result (λ t. (place.new ≡ place.old + t.length) × (t.place ≡ place.old)) (λ _. place.new ≡ place.old) }
        ensures bound { place.new ≤ length text.now }
    {
        let at = *place;
        let seen = self.seek(&text[at..]);
        let best = seen.best.ok_or(Refusal::NoToken {
            place: at,
            count: seen.count,
        })?;
        *place = at + best.length;
        Ok(Token {
            place: at,
            length: best.length,
            rules: best.rules,
            count: seen.count,
        })
    }

    // Reads the longest token at the cursor's place, and moves the cursor to its end. Refused where no beginning of the rest
    // but the empty one meets a rule; the cursor then stays.
    pub fn token(&mut self, cursor: &mut Cursor<'_, B::Symbol>) -> Result<Token, Refusal>
        ensures does { Does (reads (token (codes_of B.Symbol.Symbol.code cursor.old) cursor.old.place)) (token_told result) (token_count result) (view self.old) (view self.new) }
        ensures meant { ReadsAsMeant (token (codes_of B.Symbol.Symbol.code cursor.old) cursor.old.place) (token_told result) (token_count result) (view self.old) (view self.new) }
        ensures moves { MatchResult result (λ t. Moved cursor.old t cursor.new) (λ _. Unmoved cursor.old cursor.new) }
    {
        let text = cursor.text;
        let mut place = cursor.place;
        let token = self.advance(text, &mut place)?;
        cursor.from = token.place;
        cursor.place = place;
        cursor.to = place;
        Ok(token)
    }

    // Answers as reading the next token would, and leaves the cursor where it was.
    pub fn peek(&mut self, cursor: &mut Cursor<'_, B::Symbol>) -> Result<Token, Refusal>
        ensures does { Does (reads (peek (codes_of B.Symbol.Symbol.code cursor.old) cursor.old.place)) (token_told result) (token_count result) (view self.old) (view self.new) }
        ensures meant { ReadsAsMeant (peek (codes_of B.Symbol.Symbol.code cursor.old) cursor.old.place) (token_told result) (token_count result) (view self.old) (view self.new) }
        ensures stays { Unmoved cursor.old cursor.new }
    {
        let text = cursor.text;
        let was = cursor.place;
        let guard = PutBack {
            place: &mut cursor.place,
            was,
        };
        self.advance(text, guard.place)
    }
}
