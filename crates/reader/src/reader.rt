ghost use Rattle.std.specs.Prelude.{◌≡◌, ◌^◌, ◌<◌, alloc_error};
ghost use Rattle.kept.specs.Tables.{steps};
ghost use Rattle.readings.specs.Views.{AllRight};
ghost use Rattle.readings.specs.OneProof.{AllRight-prop};

use books::Book;
use kept::Kept;
use std::alloc::AllocError;

// A reader: its book, the steps that it keeps, its edition, and how many steps it has worked out so far. It has no model: its value
// would be all four fields again, since a refused call leaves every one as it was.
#[derive(Drop)]
pub struct Reader<B: Book> {
    pub(crate) book: B,
    pub(crate) kept: Kept,
    pub(crate) edition: u32,
    pub(crate) tally: u32,
    ghost fits: { tally < 2 ^ 32 },
    ghost editions: { edition < 2 ^ 32 },
    // every kept step is the book's own, from a state of live positions
    ghost sound: { AllRight (B.model book).meaning (steps kept) } by { AllRight-prop (B.model book).meaning (steps kept) },
}

// There is no memory for a reader. The book is handed back.
#[derive(Drop)]
pub struct NoMemory<B> {
    pub book: B,
}

// Where the book is not wanted back, `?` drops it.
impl<B: Drop> From<NoMemory<B>> for AllocError {
    ghost from_gives = { λ _ e. e ≡ alloc_error };

    fn from(_e: NoMemory<B>) -> AllocError {
        AllocError
    }
}
