// Batches run.
ghost use Rattle.std.specs.Prelude.{◌≡◌, ℕ, ◌+◌, ◌^◌, ◌<◌, ◌≤◌, List, [], ◌∷◌, ◌++◌, length, IfErr, IfOk, slice_get};
ghost use Rattle.reader.specs.View.{view};
ghost use Rattle.readings.specs.Views.{View};
ghost use Rattle.batches.specs.Records.{Ask, ask_of, batch as batch_of, lines_of};
ghost use Rattle.batches.specs.Runs.{Running, Runs, RunsBatch, NotRun, refusals};
ghost use Rattle.batches.specs.declared.done.Refused.{Refused};

use crate::checking::check;
use crate::decoding::first;
use crate::done::{BatchFault, Done, Refused, RunFault};
use crate::record::Record;
use books::Refusal;
use expression_book::ExpressionBook;
use reader::Reader;
use std::alloc::Global;

// Runs a batch on a reader: changes its rules, and reads its lines, each into the next mask. The whole batch is checked first,
// and where it is malformed, or has more lines than there are masks, nothing of it is run. A refused change is told, and the
// batch goes on.
pub fn feed(
    reader: &mut Reader<ExpressionBook<u8>>,
    batch: &[u8],
    masks: &mut [u64],
) -> Result<Done, BatchFault>
    ensures done { IfOk result (λ d. RunsBatch batch.now masks.old (view reader.old) (view reader.new) masks.new d) }
    ensures fault { IfErr result (λ f. NotRun batch.now (length masks.old) f) }
    ensures same { IfErr result (λ _. (reader.new ≡ reader.old) × (masks.new ≡ masks.old)) }
{
    let lines = check(batch)?;
    if lines > masks.len() {
        return Err(BatchFault::NoRoom { lines });
    }
    let mut done = Done {
        lines: 0,
        refused: 0,
        first: None,
    };
    let mut rest = batch;
    while let Some((record, behind)) = first(rest) {
        let place = batch.len() - rest.len();
        perform(reader, record, place, masks, &mut done);
        rest = behind;
    }
    Ok(done)
}

// Runs a batch on a new reader over a new expression book, with no rule and the edition 0. All the memory that it needs is taken
// first.
pub fn run(heap: Global, batch: &[u8], masks: &mut [u64]) -> Result<Done, RunFault>
    ensures { Runs batch.now masks.old masks.new result }
{
    let mut reader = Reader::new(heap, ExpressionBook::new(), 0)?;
    Ok(feed(&mut reader, batch, masks)?)
}

// Does what a record at this place of the batch asks for.
fn perform(
    reader: &mut Reader<ExpressionBook<u8>>,
    found: Record<'_>,
    place: usize,
    masks: &mut [u64],
    done: &mut Done,
)
    requires room { done.old.lines + lines_of (ask_of found) ≤ length masks.old }
    requires few { done.old.refused + 1 < 2 ^ 64 }
    ensures runs { (buffer : List ℕ) (v : View) (asks : List Ask) → place ≡ length (batch_of asks) → Running buffer v asks (view reader.old) masks.old done.old
        → Running buffer v (asks ++ ask_of found.entry ∷ []) (view reader.new) masks.new done.new }
    ensures lines { done.new.lines ≡ done.old.lines + lines_of (ask_of found.entry) }
    ensures refused { done.new.refused ≤ done.old.refused + 1 }
{
    match found {
        Record::Line(text) => {
            // the only word of a set of rules
            masks[done.lines] = reader.read(text).rules.words[0];
            done.lines += 1;
        }
        Record::Add {
            rule,
            kind,
            commands,
        } => note(
            place,
            reader.add(u32::from(rule), u32::from(kind), commands),
            done,
        ),
        Record::Delete(rule) => note(place, reader.delete(u32::from(rule)), done),
    }
}

// Tells a change that was refused.
fn note(place: usize, answer: Result<u32, Refusal>, done: &mut Done)
    requires { done.old.refused + 1 < 2 ^ 64 }
    ensures lines { done.new.lines ≡ done.old.lines }
    ensures refused { done.new.refused ≡ done.old.refused + length (refusals place answer) }
    ensures first { (fs : List Refused) → done.old.first ≡ slice_get fs 0 → done.new.first ≡ slice_get (fs ++ refusals place answer) 0 }
{
    let Err(refusal) = answer else {
        return;
    };
    done.refused += 1;
    if done.first.is_none() {
        done.first = Some(Refused { place, refusal });
    }
}
