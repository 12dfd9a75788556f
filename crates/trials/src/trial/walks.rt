// Walks, on both scanners.
use crate::second::answer::Answer;
use crate::second::calls::Path;
use crate::trial::bench::{Bench, Pair, Trial};
use crate::trial::coded::Coded;
use crate::trial::names::Call;
use crate::trial::texts::text;
use crate::trial::told;
use books::Book;
use reader::{Reader, Walk};
use std::alloc::AllocError;

// So many walks are open at most.
const OPEN: usize = 3;

// A walk is fed with so many symbols at most.
const LONGEST: usize = 20;

// Begins a walk.
pub(crate) fn begin<B: Book>(trial: &mut Trial<B>, bench: &mut Bench) -> Result<(), AllocError> {
    let walk = trial.reader.begin();
    let path = trial.twin.begin();
    open(trial, bench, walk, path)
}

// Begins a walk by another reader over a book of the same meaning.
pub(crate) fn begin_by<B: Book>(
    other: &Reader<B>,
    trial: &mut Trial<B>,
    bench: &mut Bench,
) -> Result<(), AllocError> {
    let mut path = trial.twin.begin();
    path.edition = other.edition();
    open(trial, bench, other.begin(), path)
}

// Puts a walk behind those that are open, in the place of the first if they are enough.
fn open<B: Book>(
    trial: &mut Trial<B>,
    bench: &mut Bench,
    walk: Walk,
    path: Path,
) -> Result<(), AllocError> {
    let text = text(bench, &trial.twin)?;
    let pair = Pair { walk, path, text };
    if trial.walks.len() >= OPEN {
        let _ = trial.walks.pop_front();
    }
    trial.walks.push_back(pair)?;
    Ok(())
}

// Feeds a walk, and puts it behind the others.
pub(crate) fn feed<B: Book>(trial: &mut Trial<B>, bench: &mut Bench) -> Result<(), AllocError>
where
    B::Symbol: Coded,
{
    let Some(pair) = trial.walks.pop_front() else {
        return Ok(());
    };
    let Pair {
        walk,
        mut path,
        text,
    } = pair;
    let code = match text.get(path.text.len()) {
        Some(code) if !bench.random.once_in(8) => *code,
        _ => bench.plan.code(&mut bench.random),
    };
    let Some(symbol) = B::Symbol::of(code) else {
        return Ok(());
    };
    let (first, walk) = match trial.reader.feed(walk, symbol) {
        Ok(fed) => (Answer::Number(u64::from(fed.worked)), fed.walk),
        Err(back) => (told::refused(back.refusal), back.walk),
    };
    let second = trial.twin.feed(&mut path, code)?;
    let stale = matches!(second, Answer::Refused { .. });
    if path.text.len() < LONGEST && (!stale || bench.random.once_in(3)) {
        trial.walks.push_back(Pair { walk, path, text })?;
    }
    bench
        .report
        .compare(bench.subject, Call::Feed, first, second)
}

// Finishes a walk. One that is handed back is open again.
pub(crate) fn finish<B: Book>(trial: &mut Trial<B>, bench: &mut Bench) -> Result<(), AllocError> {
    let Some(pair) = trial.walks.pop_front() else {
        return Ok(());
    };
    let Pair { walk, path, text } = pair;
    let second = trial.twin.finish(&path)?;
    let first = match trial.reader.finish(walk) {
        Ok(rules) => Answer::Number(told::rules(rules)),
        Err(back) => {
            let answer = told::refused(back.refusal);
            if bench.random.once_in(3) {
                trial.walks.push_back(Pair {
                    walk: back.walk,
                    path,
                    text,
                })?;
            }
            answer
        }
    };
    bench
        .report
        .compare(bench.subject, Call::Finish, first, second)
}
