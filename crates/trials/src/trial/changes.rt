// Changes of rules, on both scanners.
use crate::second::answer::Answer;
use crate::trial::bench::{Bench, Trial};
use crate::trial::names::{Call, Subject};
use crate::trial::pattern_rules::add_pattern;
use crate::trial::runs::{filling, run};
use crate::trial::template_texts::template_text;
use crate::trial::told;
use books::ChangingBook;
use std::alloc::AllocError;

// An adding, more often, or a deletion. Most numbers are of the plan's.
pub(crate) fn change<B: ChangingBook>(
    trial: &mut Trial<B>,
    bench: &mut Bench,
) -> Result<(), AllocError> {
    let random = &mut bench.random;
    let number = match random.below(16) {
        0 => random.word_below(200),
        1 => u32::MAX,
        _ => random.word_below(bench.plan.numbers),
    };
    if random.once_in(3) {
        delete(trial, bench, number)
    } else {
        add(trial, bench, number)
    }
}

fn add<B: ChangingBook>(
    trial: &mut Trial<B>,
    bench: &mut Bench,
    number: u32,
) -> Result<(), AllocError> {
    let random = &mut bench.random;
    let kind = match random.below(16) {
        0 => random.word_below(70000),
        1 => 4095,
        2 => 4096,
        _ => random.word_below(4096),
    };
    let heap = trial.twin.heap;
    let bytes = match bench.subject {
        Subject::Patterns => return add_pattern(trial, bench, number, kind),
        Subject::Templates => template_text(heap, random, &bench.plan)?,
        _ if random.once_in(30) => {
            // as many as there is room for, or one more or less
            let room = 255usize.saturating_sub(trial.twin.positions());
            let symbols = room.saturating_add(random.below(3)).saturating_sub(1);
            filling(heap, random, &bench.plan, symbols)?
        }
        _ => run(heap, random, &bench.plan)?,
    };
    add_bytes(trial, bench, number, kind, &bytes)?;
    Ok(())
}

// Adds a rule by its bytes, and answers whether it is in force then.
pub(crate) fn add_bytes<B: ChangingBook>(
    trial: &mut Trial<B>,
    bench: &mut Bench,
    number: u32,
    kind: u32,
    bytes: &[u8],
) -> Result<bool, AllocError> {
    let first = told::changed(trial.reader.add(number, kind, bytes));
    let second = trial.twin.add(number, kind, bytes)?;
    bench
        .report
        .compare(bench.subject, Call::Add, first, second)?;
    Ok(matches!(second, Answer::Number(_)))
}

fn delete<B: ChangingBook>(
    trial: &mut Trial<B>,
    bench: &mut Bench,
    number: u32,
) -> Result<(), AllocError> {
    let first = told::changed(trial.reader.delete(number));
    let second = trial.twin.delete(number);
    bench
        .report
        .compare(bench.subject, Call::Delete, first, second)
}
