// The answer of a call that may be refused. Two functions, which share the line of the refusal: what each prints else differs.
ghost use Rattle.answers.specs.Texts.{Writes};
ghost use Rattle.contexts.specs.Uses.{change_text, token_text};

use books::{Book, Refusal};
use reader::Token;
use std::alloc::AllocError;

// The token that was read or peeked. The answer begins with the word of the command, which is any text, as in `answers`.
pub(crate) fn tell_token<B: Book>(
    out: &mut String,
    word: &str,
    book: &B,
    token: Result<Token, Refusal>,
) -> Result<(), AllocError>
    ensures { Writes result out.old out.new (token_text word.now (B.Book.model book.now).meaning.kind token) }
{
    match token {
        Ok(token) => answers::token(out, word, book, token),
        Err(refusal) => answers::refused(out, refusal.tell()),
    }
}

// The new edition after a change of a rule. The answer begins with the word of the command, which is any text, as in `answers`.
pub(crate) fn tell_change(
    out: &mut String,
    word: &str,
    rule: u32,
    changed: Result<u32, Refusal>,
) -> Result<(), AllocError>
    ensures { Writes result out.old out.new (change_text word.now rule changed) }
{
    match changed {
        Ok(edition) => answers::changed(out, word, rule, edition),
        Err(refusal) => answers::refused(out, refusal.tell()),
    }
}
