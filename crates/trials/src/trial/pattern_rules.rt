// Pattern texts, read by both scanners, and the rules that they stand for.
use crate::second::answer::Answer;
use crate::second::pattern::{Pattern, read_pattern};
use crate::second::rule::Meaning;
use crate::trial::bench::{Bench, Trial};
use crate::trial::changes::add_bytes;
use crate::trial::names::Call;
use crate::trial::pattern_texts::pattern_text;
use crate::trial::told;
use books::ChangingBook;
use patterns::commands;
use std::alloc::{AllocError, Global};

// What the buffer holds at first.
const UNTOUCHED: u8 = 7;

// Most buffers are so long.
const LONG: usize = 2000;

// Reads a random pattern text into a buffer, and where it stands for commands adds the rule.
pub(crate) fn add_pattern<B: ChangingBook>(
    trial: &mut Trial<B>,
    bench: &mut Bench,
    number: u32,
    kind: u32,
) -> Result<(), AllocError> {
    let heap = trial.twin.heap;
    let text = pattern_text(heap, &mut bench.random, &bench.plan)?;
    let room = if bench.random.once_in(20) {
        bench.random.below(40)
    } else {
        LONG
    };
    let mut buffer = vec![in heap; UNTOUCHED; room]?;
    let first = match commands(&text, &mut buffer) {
        Ok(length) => Answer::Number(length as u64),
        Err(fault) => told::told(fault.tell()),
    };
    let read = fitting(heap, &text, room)?;
    let second = match &read {
        Ok(pattern) => Answer::Number(pattern.commands.len() as u64),
        Err(refused) => *refused,
    };
    bench
        .report
        .compare(bench.subject, Call::Pattern, first, second)?;
    compare_buffers(bench, &buffer, read.as_ref().ok())?;
    match read {
        Ok(pattern) => add_read(trial, bench, number, kind, pattern),
        Err(_) => Ok(()),
    }
}

// What a text stands for, if its commands are not longer than the room.
fn fitting(heap: Global, text: &[u8], room: usize) -> Result<Result<Pattern, Answer>, AllocError> {
    Ok(match read_pattern(heap, text)? {
        Ok(pattern) if pattern.commands.len() <= room => Ok(pattern),
        Ok(_) => Err(Answer::refused(26, 4)),
        Err(fault) => Err(Answer::refused_at(fault.number, 4, fault.place)),
    })
}

// Compares how many bytes of the buffer are as they ought to be: the commands, and behind them what was there.
fn compare_buffers(
    bench: &mut Bench,
    buffer: &[u8],
    pattern: Option<&Pattern>,
) -> Result<(), AllocError> {
    let mut right: u64 = 0;
    for (at, byte) in buffer.iter().enumerate() {
        let wanted = pattern
            .and_then(|pattern| pattern.commands.get(at))
            .copied();
        if *byte == wanted.unwrap_or(UNTOUCHED) {
            right = right.saturating_add(1);
        }
    }
    let first = Answer::Number(right);
    let second = Answer::Number(buffer.len() as u64);
    bench
        .report
        .compare(bench.subject, Call::Buffer, first, second)
}

// Adds the rule of these commands. By the second scanner it means what the pattern text does.
fn add_read<B: ChangingBook>(
    trial: &mut Trial<B>,
    bench: &mut Bench,
    number: u32,
    kind: u32,
    pattern: Pattern,
) -> Result<(), AllocError> {
    let Pattern { nodes, commands } = pattern;
    let in_force = add_bytes(trial, bench, number, kind, &commands)?;
    if in_force && let Some(rule) = trial.twin.rules.last_mut() {
        rule.meaning = Meaning::Expression(nodes);
    }
    Ok(())
}
