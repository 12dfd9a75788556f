// The call itself.
ghost use Rattle.batch.specs.Outcomes.{Called};

use crate::outcome::{BatchOutcome, status_for, told};
use std::alloc::Global;

// Runs a batch on a new reader over a new expression book, with a mask for each line, and tells the outcome; answers the status.
#[unsafe(no_mangle)]
pub extern "C" fn line_batch_run(
    heap: Global,
    batch: &[u8],
    masks: &mut [u64],
    outcome: &mut BatchOutcome,
) -> u32
    ensures { Called batch.now masks.old masks.new outcome.new result }
{
    let answer = batches::run(heap, batch, masks);
    *outcome = told(answer);
    status_for(answer) as u32
}
