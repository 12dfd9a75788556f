// A whole batch checked before any of it is run.
ghost use Rattle.std.specs.Prelude.{◌≡◌, List, MatchResult};
ghost use Rattle.batches.specs.Records.{Ask, IsBatch, MalformedAt, lines_in};

use crate::decoding::first;
use crate::done::Malformed;

// How many lines a batch has; refused where no whole record stands.
pub fn check(batch: &[u8]) -> Result<usize, Malformed>
    ensures { MatchResult result (λ n. (asks : List Ask) × IsBatch asks batch.now × (n ≡ lines_in asks)) (λ m. MalformedAt m.place batch.now) }
{
    let mut rest = batch;
    let mut lines = 0;
    while !rest.is_empty() {
        let place = batch.len() - rest.len();
        let (record, behind) = first(rest).ok_or(Malformed { place })?;
        lines += record.lines();
        rest = behind;
    }
    Ok(lines)
}
