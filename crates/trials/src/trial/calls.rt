// Readings, on both scanners, and what both tell of themselves.
use crate::second::answer::Answer;
use crate::second::calls::Marker;
use crate::trial::bench::{Bench, Trial};
use crate::trial::coded::Coded;
use crate::trial::names::Call;
use crate::trial::texts::text;
use crate::trial::told;
use crate::trial::walks::{begin, feed, finish};
use books::{Book, Noted};
use reader::Cursor;
use std::alloc::{AllocError, Global};
use symbols::Symbol;

// A random call that changes no rule, and then what both tell.
pub(crate) fn call<B: Noted>(
    trial: &mut Trial<B>,
    bench: &mut Bench,
    cursor: &mut Cursor<'_, B::Symbol>,
    marker: &mut Marker,
) -> Result<(), AllocError>
where
    B::Symbol: Coded,
{
    match bench.random.below(12) {
        0..=2 => read(trial, bench)?,
        3..=4 => token(trial, bench, cursor, marker)?,
        5 => peek(trial, bench, cursor, marker)?,
        6 => begin(trial, bench)?,
        7..=10 => feed(trial, bench)?,
        _ => finish(trial, bench)?,
    }
    place(bench, cursor, marker)?;
    tell(trial, bench)
}

// The symbols of these codes.
pub(crate) fn symbols<S: Coded>(heap: Global, codes: &[u32]) -> Result<Vec<S>, AllocError> {
    let mut text = Vec::new(heap);
    for code in codes {
        if let Some(symbol) = S::of(*code) {
            text.push(symbol)?;
        }
    }
    Ok(text)
}

fn read<B: Book>(trial: &mut Trial<B>, bench: &mut Bench) -> Result<(), AllocError>
where
    B::Symbol: Coded,
{
    let codes = text(bench, &trial.twin)?;
    let text = symbols(trial.twin.heap, &codes)?;
    let first = told::read(trial.reader.read(&text));
    let second = trial.twin.read(&codes)?;
    bench
        .report
        .compare(bench.subject, Call::Read, first, second)
}

fn token<B: Book>(
    trial: &mut Trial<B>,
    bench: &mut Bench,
    cursor: &mut Cursor<'_, B::Symbol>,
    marker: &mut Marker,
) -> Result<(), AllocError> {
    let first = told::token(trial.reader.token(cursor));
    let second = trial.twin.token(marker)?;
    bench
        .report
        .compare(bench.subject, Call::Token, first, second)
}

fn peek<B: Book>(
    trial: &mut Trial<B>,
    bench: &mut Bench,
    cursor: &mut Cursor<'_, B::Symbol>,
    marker: &mut Marker,
) -> Result<(), AllocError> {
    let first = told::token(trial.reader.peek(cursor));
    let second = trial.twin.peek(marker)?;
    bench
        .report
        .compare(bench.subject, Call::Peek, first, second)
}

// Where the cursor stands, and its last token: where it begins, and each of its codes.
fn place<S: Symbol>(
    bench: &mut Bench,
    cursor: &Cursor<'_, S>,
    marker: &Marker,
) -> Result<(), AllocError> {
    let first = Answer::Number(cursor.place() as u64);
    let second = Answer::Number(marker.place as u64);
    bench
        .report
        .compare(bench.subject, Call::Place, first, second)?;
    let last = cursor.last();
    let part = marker.text.get(marker.from..marker.to).unwrap_or(&[]);
    let first = Answer::Last {
        place: cursor.last_place() as u64,
        length: last.len() as u64,
    };
    let second = Answer::Last {
        place: marker.from as u64,
        length: part.len() as u64,
    };
    bench
        .report
        .compare(bench.subject, Call::Last, first, second)?;
    for (symbol, code) in last.iter().zip(part) {
        let first = Answer::Number(u64::from(symbol.code()));
        let second = Answer::Number(u64::from(*code));
        bench
            .report
            .compare(bench.subject, Call::Last, first, second)?;
    }
    Ok(())
}

// The edition, the tally, how often the book was asked, and the kind of a rule.
fn tell<B: Noted>(trial: &Trial<B>, bench: &mut Bench) -> Result<(), AllocError> {
    let subject = bench.subject;
    let first = Answer::Number(u64::from(trial.reader.edition()));
    let second = Answer::Number(u64::from(trial.twin.edition));
    bench.report.compare(subject, Call::Edition, first, second)?;
    let first = Answer::Number(u64::from(trial.reader.tally()));
    let second = Answer::Number(u64::from(trial.twin.tally));
    bench.report.compare(subject, Call::Tally, first, second)?;
    let first = Answer::Number(u64::from(trial.reader.book().note()));
    let second = Answer::Number(u64::from(trial.twin.note));
    bench.report.compare(subject, Call::Note, first, second)?;
    let number = bench
        .random
        .one_of(&[0, 1, 2, 3, 4, 5, 7, 8, 63, 64, 70000, u32::MAX], 0);
    let first = Answer::Kind(trial.reader.kind(number).map(u32::from));
    let second = Answer::Kind(trial.twin.rule(number).map(|rule| rule.kind));
    bench.report.compare(subject, Call::Kind, first, second)
}
