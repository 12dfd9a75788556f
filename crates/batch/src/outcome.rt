// What a batch came to, as C sees it.
ghost use Rattle.std.specs.Prelude.{◌≡◌};
ghost use Rattle.batch.specs.Outcomes.{first_of, nothing, no_change, outcome_of, status_of};

use batches::{BatchFault, Done, Malformed, Refused, RunFault};

// Whether a batch was run, and else why not. Nothing is run where it is malformed, where masks have no room for its lines, or where
// there is no memory.
#[derive(Clone, Copy)]
pub(crate) enum Status {
    Run = 0,
    Malformed = 1,
    NoRoom = 2,
    NoMemory = 3,
}

// The first change that was refused: where its record begins in the batch, and the refusal's number, layer and place. All are 0 where
// none was.
#[repr(C)]
#[derive(Clone, Copy)]
pub struct RefusedChange {
    pub begin: usize,
    pub place: usize,
    pub number: u32,
    pub layer: u32,
}

// Of a batch that was run, how many lines were read and how many changes were refused; of one that has no room, how many lines it
// has; of a malformed one, the place where no whole record stands. What says nothing is 0.
#[repr(C)]
#[derive(Clone, Copy)]
pub struct BatchOutcome {
    pub place: usize,
    pub lines: usize,
    pub refused: usize,
    pub first: RefusedChange,
}

pub(crate) fn status_for(answer: Result<Done, RunFault>) -> Status
    ensures { result ≡ status_of answer }
{
    match answer {
        Ok(_) => Status::Run,
        Err(RunFault::Batch(BatchFault::Malformed(_))) => Status::Malformed,
        Err(RunFault::Batch(BatchFault::NoRoom { .. })) => Status::NoRoom,
        Err(RunFault::NoMemory) => Status::NoMemory,
    }
}

pub(crate) fn told(answer: Result<Done, RunFault>) -> BatchOutcome
    ensures { result ≡ outcome_of answer }
{
    match answer {
        Ok(done) => BatchOutcome {
            lines: done.lines,
            refused: done.refused,
            first: first(done.first),
            ..nothing()
        },
        Err(RunFault::Batch(BatchFault::Malformed(Malformed { place }))) => BatchOutcome {
            place,
            ..nothing()
        },
        Err(RunFault::Batch(BatchFault::NoRoom { lines })) => BatchOutcome { lines, ..nothing() },
        Err(RunFault::NoMemory) => nothing(),
    }
}

// The outcome that says nothing.
fn nothing() -> BatchOutcome
    ensures { result ≡ nothing }
{
    BatchOutcome {
        place: 0,
        lines: 0,
        refused: 0,
        first: no_change(),
    }
}

fn no_change() -> RefusedChange
    ensures { result ≡ no_change }
{
    RefusedChange {
        begin: 0,
        place: 0,
        number: 0,
        layer: 0,
    }
}

fn first(change: Option<Refused>) -> RefusedChange
    ensures { result ≡ first_of change }
{
    let Some(Refused { place, refusal }) = change else {
        return no_change();
    };
    let told = refusal.tell();
    RefusedChange {
        begin: place,
        place: told.place,
        number: u32::from(told.number),
        layer: u32::from(told.layer),
    }
}
