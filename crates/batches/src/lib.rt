// Batches: rules, changes and lines in one buffer of bytes, run on a reader over an expression book, with one mask for each line.
#![tactic(auto)]

mod checking;
mod decoding;
mod done;
mod feeding;
mod record;

pub use checking::check;
pub use done::{BatchFault, Done, Malformed, Refused, RunFault};
pub use feeding::{feed, run};

#[cfg(test)]
mod tests {
    use crate::{BatchFault, Malformed, RunFault, run};
    use std::test::Fail;

    // k[0-9]+ and k4, a line that meets both, an adding that is refused, a deletion, and the line again
    const BATCH: &[u8] =
        b"A\x00\x00\x0a\x00\x0aC\x00kR\x000\x009PJA\x01\x00\x0b\x00\x07C\x00kC\x004JL\x00\x02k4A\x01\x00\x0b\x00\x01ED\x01L\x00\x02k4";

    #[test]
    fn goes_on_behind_a_refused_change(rt: HostRuntime) -> Result<(), Fail> {
        let mut masks = [9; 3];
        let done = run(rt.alloc(), BATCH, &mut masks).map_err(|_| Fail::new("not run"))?;
        assert_eq!(rt; masks, [3, 1, 9]);
        assert_eq!(rt; done.lines, 2);
        assert_eq!(rt; done.refused, 1);
        let first = done.first.ok_or_else(|| Fail::new("a refusal"))?;
        assert_eq!(rt; first.place, 34);
        assert_eq!(rt; first.refusal.tell().number, 4);
        Ok(())
    }

    #[test]
    fn runs_nothing_of_a_batch_that_is_not_whole(rt: HostRuntime) {
        let mut masks = [9; 2];
        let cut = run(rt.alloc(), &BATCH[..47], &mut masks);
        assert!(rt;
            matches!(
                cut,
                Err(RunFault::Batch(BatchFault::Malformed(Malformed { place: 43 })))
            )
        );
        let narrow = run(rt.alloc(), BATCH, &mut masks[..1]);
        assert!(rt;
            matches!(
                narrow,
                Err(RunFault::Batch(BatchFault::NoRoom { lines: 2 }))
            )
        );
        assert_eq!(rt; masks, [9, 9]);
    }
}
