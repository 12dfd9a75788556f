// The making of events, in and out of range.
use crate::second::answer::Answer;
use crate::trial::bench::Bench;
use crate::trial::names::Call;
use crate::trial::told;
use books::Refusal;
use std::alloc::AllocError;
use symbols::{Event, Symbol};

// Compares the code of an event, or why there is none.
pub(crate) fn event(bench: &mut Bench) -> Result<(), AllocError> {
    let machine = number(bench, 16);
    let kind = number(bench, 4096);
    let first = match Event::new(machine, kind) {
        Ok(event) => Answer::Number(u64::from(event.code())),
        Err(fault) => told::refused(Refusal::from(fault)),
    };
    let second = if machine >= 16 || kind >= 4096 {
        Answer::refused(16, 1)
    } else {
        Answer::Number(4096 * u64::from(machine) + u64::from(kind))
    };
    bench
        .report
        .compare(bench.subject, Call::Event, first, second)
}

// A number that is most often below the bound.
fn number(bench: &mut Bench, bound: u32) -> u32 {
    match bench.random.below(16) {
        0 => bound,
        1 => bench.random.word(),
        2 => bound.saturating_sub(1),
        _ => bench.random.word_below(bound),
    }
}
