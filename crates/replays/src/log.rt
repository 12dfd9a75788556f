use books::Refusal;
use reader::{Answer, Fed, HandedBack, Token, Walk};
use states::Rules;

// A call of a reader, with all that it is given. A token is read, or peeked, at a place of a text.
#[derive(Drop)]
pub enum Ask<S> {
    Read(Vec<S>),
    Token {
        text: Vec<S>,
        place: usize,
    },
    Peek {
        text: Vec<S>,
        place: usize,
    },
    Begin,
    Feed {
        walk: Walk,
        symbol: S,
    },
    Finish(Walk),
    Add {
        rule: u32,
        kind: u32,
        bytes: Vec<u8>,
    },
    Delete(u32),
}

// What a call answered, as the reader answered it. A peek answers a token too.
#[derive(Drop)]
pub enum Reply {
    Read(Answer),
    Token(Result<Token, Refusal>),
    Begun(Walk),
    Fed(Result<Fed, HandedBack>),
    Finished(Result<Rules, HandedBack>),
    Changed(Result<u32, Refusal>),
}
