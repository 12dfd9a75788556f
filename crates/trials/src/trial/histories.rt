// Histories: a new reader by both scanners, and random calls on both.
use crate::second::calls::Marker;
use crate::second::twin::Twin;
use crate::trial::bench::{Bench, Trial};
use crate::trial::calls::{call, symbols};
use crate::trial::changes::change;
use crate::trial::coded::Coded;
use crate::trial::texts::text;
use crate::trial::walks::begin_by;
use books::{Book, ChangingBook, Noted};
use reader::{Cursor, Reader};
use std::alloc::AllocError;
use std::collections::VecDeque;

// A history over a book that can be changed. Changes come between calls at one cursor, too.
pub(crate) fn changing<B: ChangingBook + Noted + Drop>(
    bench: &mut Bench,
    book: B,
    twin: Twin,
) -> Result<(), AllocError>
where
    B::Symbol: Coded,
{
    let mut trial = begun(bench, book, twin)?;
    for _ in 0..4 {
        change(&mut trial, bench)?;
    }
    for _ in 0..bench.plan.rounds {
        let codes = text(bench, &trial.twin)?;
        let text = symbols(trial.twin.heap, &codes)?;
        let place = bench.random.below(6);
        let mut cursor = Cursor::new(&text, place);
        let mut marker = Marker::new(codes, place);
        for _ in 0..4 {
            if bench.random.once_in(bench.plan.changes) {
                change(&mut trial, bench)?;
            }
            calls(&mut trial, bench, &mut cursor, &mut marker)?;
        }
    }
    bench.report.count_steps(bench.subject, &trial.twin);
    Ok(())
}

// A history over a book that can only be read. Some walks are begun by a reader over another book that means the same, with the
// same edition or the next.
pub(crate) fn reading<B: Noted + Drop>(
    bench: &mut Bench,
    book: B,
    other: B,
    twin: Twin,
) -> Result<(), AllocError>
where
    B::Symbol: Coded,
{
    let edition = bench
        .plan
        .edition
        .saturating_add(u32::from(bench.random.once_in(3)));
    let other = Reader::new(twin.heap, other, edition)?;
    let mut trial = begun(bench, book, twin)?;
    for _ in 0..bench.plan.rounds {
        let codes = text(bench, &trial.twin)?;
        let text = symbols(trial.twin.heap, &codes)?;
        let place = bench.random.below(6);
        let mut cursor = Cursor::new(&text, place);
        let mut marker = Marker::new(codes, place);
        calls(&mut trial, bench, &mut cursor, &mut marker)?;
        if bench.random.once_in(2) {
            begin_by(&other, &mut trial, bench)?;
        }
    }
    bench.report.count_steps(bench.subject, &trial.twin);
    Ok(())
}

// A new reader by both scanners.
fn begun<B: Book + Drop>(bench: &Bench, book: B, twin: Twin) -> Result<Trial<B>, AllocError> {
    let heap = twin.heap;
    Ok(Trial {
        reader: Reader::new(heap, book, bench.plan.edition)?,
        twin,
        walks: VecDeque::new(heap),
    })
}

// A few calls that change no rule.
fn calls<B: Noted>(
    trial: &mut Trial<B>,
    bench: &mut Bench,
    cursor: &mut Cursor<'_, B::Symbol>,
    marker: &mut Marker,
) -> Result<(), AllocError>
where
    B::Symbol: Coded,
{
    for _ in 0..bench.random.below(8) {
        call(trial, bench, cursor, marker)?;
    }
    Ok(())
}
