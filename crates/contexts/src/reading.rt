// Reading whole texts, and tokens at the cursor.
ghost use Rattle.std.specs.Prelude.{◌≡◌, map};
ghost use Rattle.readings.specs.Readings.Reading.{token as token_at};
ghost use Rattle.readings.specs.Calls.{Does};
ghost use Rattle.readings.specs.Calls.Call.{read as reads};
ghost use Rattle.reader.specs.Answers.{token_told, token_count};
ghost use Rattle.reader.specs.View.{view};
ghost use Rattle.passes.specs.Runs.{Done, Ran};
ghost use Rattle.contexts.specs.Uses.{PeeksToken, Places, Reads, ReadsToken, Wants, moved, wanting_cursor};
ghost use Rattle.contexts.specs.Contexts.{marker_of, use_of};

use crate::context::{Context, Track};
use crate::telling::tell_token;
use books::{Book, Refusal};
use lines::Expected;
use passes::Fault;
use reader::{Cursor, Reader, Token};
use std::alloc::AllocError;

impl<B: Book> Context<B> {
    // Reads a whole text.
    pub(crate) fn read(&mut self, text: &[B::Symbol], out: &mut String) -> Result<(), AllocError>
        ensures { Done result use_of (Reads (map B.Symbol.Symbol.code text.now)) self.old self.new out.old out.new }
    {
        let answer = self.reader.read(text);
        answers::read(out, self.reader.book(), answer.rules, answer.count)
    }

    // Puts the cursor at a place of a text; one beyond its length becomes the length.
    pub(crate) fn place(
        &mut self,
        text: Vec<B::Symbol>,
        place: usize,
        out: &mut String,
    ) -> Result<(), AllocError>
        ensures { Done result use_of (Places place (map B.Symbol.Symbol.code text.items)) self.old self.new out.old out.new }
    {
        let length = text.len();
        let place = place.min(length);
        self.cursor = Some(Track {
            text,
            place,
            from: place,
            to: place,
        });
        answers::cursor(out, place, length)
    }

    // Reads the next token at the cursor.
    pub(crate) fn token(&mut self, out: &mut String) -> Result<(), Fault>
        ensures { Ran result use_of ReadsToken (Wants wanting_cursor) self.old self.new out.old out.new }
    {
        let track = self.cursor.as_mut().ok_or(Expected::Cursor)?;
        let token = read_token(&mut self.reader, track);
        Ok(tell_token(out, "token", self.reader.book(), token)?)
    }

    // Peeks at the next token at the cursor.
    pub(crate) fn peek(&mut self, out: &mut String) -> Result<(), Fault>
        ensures { Ran result use_of PeeksToken (Wants wanting_cursor) self.old self.new out.old out.new }
    {
        let track = self.cursor.as_ref().ok_or(Expected::Cursor)?;
        let mut cursor = Cursor::new(&track.text, track.place);
        let token = self.reader.peek(&mut cursor);
        Ok(tell_token(out, "peek", self.reader.book(), token)?)
    }
}

// Reads the next token, and stands behind it then.
fn read_token<B: Book>(
    reader: &mut Reader<B>,
    track: &mut Track<B::Symbol>,
) -> Result<Token, Refusal>
    ensures does { Does (reads (token_at (map B.Symbol.Symbol.code track.old.text.items) track.old.place)) (token_told result) (token_count result) (view reader.old) (view reader.new) }
    ensures moves { marker_of B.Symbol.Symbol.code track.new ≡ moved (marker_of B.Symbol.Symbol.code track.old) result }
{
    let mut cursor = Cursor::new(&track.text, track.place);
    let token = reader.token(&mut cursor)?;
    let from = cursor.last_place();
    let place = cursor.place();
    track.place = place;
    track.from = from;
    track.to = place;
    Ok(token)
}
