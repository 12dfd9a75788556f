// What a batch came to, and why one was not run.
ghost use Rattle.std.specs.Prelude.{◌≡◌};
ghost use Rattle.batches.specs.declared.done.BatchFault.TheVariants.{Malformed as OfBytes};
ghost use Rattle.batches.specs.declared.done.RunFault.TheVariants.{Batch as OfBatch, NoMemory as OfMemory};

use books::Refusal;
use expression_book::ExpressionBook;
use reader::NoMemory;

// A change that the reader refused, and where its record begins in the batch.
#[derive(Clone, Copy, PartialEq, Eq, Debug)]
pub struct Refused {
    pub place: usize,
    pub refusal: Refusal,
}

// A batch that was run: how many lines were read, how many changes were refused, and the first of those.
#[derive(Clone, Copy, PartialEq, Eq, Debug)]
pub struct Done {
    pub lines: usize,
    pub refused: usize,
    pub first: Option<Refused>,
}

// No whole record stands at this place of the bytes.
#[derive(Clone, Copy, PartialEq, Eq, Debug)]
pub struct Malformed {
    pub place: usize,
}

// Why nothing of a batch was run.
#[derive(Clone, Copy, PartialEq, Eq, Debug)]
pub enum BatchFault {
    Malformed(Malformed),
    // it has so many lines, and fewer masks have room
    NoRoom { lines: usize },
}

// Why a batch was not run on a new reader.
#[derive(Clone, Copy, PartialEq, Eq, Debug)]
pub enum RunFault {
    Batch(BatchFault),
    // there is no memory for a reader
    NoMemory,
}

impl From<Malformed> for BatchFault {
    ghost from_gives = { λ m r. r ≡ OfBytes m };

    fn from(fault: Malformed) -> BatchFault {
        BatchFault::Malformed(fault)
    }
}

impl From<BatchFault> for RunFault {
    ghost from_gives = { λ f r. r ≡ OfBatch f };

    fn from(fault: BatchFault) -> RunFault {
        RunFault::Batch(fault)
    }
}

impl From<NoMemory<ExpressionBook<u8>>> for RunFault {
    ghost from_gives = { λ _ r. r ≡ OfMemory };

    fn from(_fault: NoMemory<ExpressionBook<u8>>) -> RunFault {
        RunFault::NoMemory
    }
}
