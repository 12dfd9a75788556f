// The reader in use, with the cursor and the walk that commands work on.
ghost use Rattle.std.specs.Prelude.{◌≤◌, vec_len};

use books::Book;
use reader::{Reader, Walk};

// A text, a place in it, and where its last token begins and ends, in two numbers as a cursor has them. It owns its text, and a reader's cursor is made over it
// for each call: no struct can hold both a text and a cursor that borrows it, and a cursor over any kind of text would bring a type
// parameter for it into each contract of the reader.
#[derive(Drop)]
pub(crate) struct Track<S> {
    pub(crate) text: Vec<S>,
    pub(crate) place: usize,
    pub(crate) from: usize,
    pub(crate) to: usize,
    ghost within: { place ≤ vec_len text },
    ghost part: { (from ≤ to) × (to ≤ vec_len text) },
}

#[derive(Drop)]
pub struct Context<B: Book> {
    pub(crate) reader: Reader<B>,
    pub(crate) cursor: Option<Track<B::Symbol>>,
    pub(crate) walk: Option<Walk>,
}
