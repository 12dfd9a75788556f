// Random pattern texts.
use crate::random::Random;
use crate::trial::plan::Plan;
use std::alloc::{AllocError, Global};

// A pattern text, most often a good one.
pub(crate) fn pattern_text(
    heap: Global,
    random: &mut Random,
    plan: &Plan,
) -> Result<Vec<u8>, AllocError> {
    let deep = random.once_in(30);
    let pieces = match random.below(30) {
        _ if deep => 40,
        0 => random.below(160),
        1 => random.below(60),
        _ => random.below(plan.leaves.saturating_add(3)),
    };
    let mut text = Vec::new(heap);
    if random.once_in(40) {
        put_wide(&mut text, random.below(4))?;
    }
    let mut open: usize = 0;
    for _ in 0..pieces {
        open = put_piece(&mut text, random, plan, open, deep)?;
    }
    if !random.once_in(20) {
        for _ in 0..open {
            text.push(b')')?;
        }
    }
    if random.once_in(60) {
        text.push(b'\\')?;
    }
    Ok(text)
}

// Puts one piece, or a part of one, and answers how many brackets are open then.
fn put_piece(
    text: &mut Vec<u8>,
    random: &mut Random,
    plan: &Plan,
    open: usize,
    deep: bool,
) -> Result<usize, AllocError> {
    match random.below(16) {
        0..=7 if deep => text.push(b'(')?,
        0 | 1 => text.push(b'(')?,
        2 | 3 if open > 0 => {
            text.push(b')')?;
            return Ok(open.saturating_sub(1));
        }
        4 | 5 => {
            put_class(text, random, plan)?;
            return Ok(open);
        }
        choice => {
            put_small(text, random, plan, choice)?;
            return Ok(open);
        }
    }
    Ok(open.saturating_add(1))
}

// Puts a piece without brackets, or a sign.
fn put_small(
    text: &mut Vec<u8>,
    random: &mut Random,
    plan: &Plan,
    choice: usize,
) -> Result<(), AllocError> {
    let byte = byte(random, plan);
    match choice {
        6 => text.push(b'.')?,
        7 => text.push(b'|')?,
        8 | 9 if signed(text) || random.once_in(20) => text.push(random.one_of(b"*+?", b'*'))?,
        10 => text.extend_from_slice(&[b'\\', random.one_of(b"\\[](){}|*+?.", byte)])?,
        11 if random.once_in(8) => text.push(random.one_of(b"\\[](){}|*+?.^-", byte))?,
        _ => text.push(byte)?,
    }
    Ok(())
}

// Whether a sign may stand behind the text, most often.
fn signed(text: &Vec<u8>) -> bool {
    text.last().is_some_and(|last| !b"(|".contains(last))
}

fn byte(random: &mut Random, plan: &Plan) -> u8 {
    (plan.code(random) & 0xff) as u8
}

// Puts a class, most often a good one.
fn put_class(text: &mut Vec<u8>, random: &mut Random, plan: &Plan) -> Result<(), AllocError> {
    text.push(b'[')?;
    if random.once_in(4) {
        text.push(b'^')?;
    }
    for _ in 0..random.below(5) {
        let byte = byte(random, plan);
        match random.below(8) {
            0 => text.push(random.one_of(b"-^(*.", b'-'))?,
            1 => text.extend_from_slice(&[b'\\', random.one_of(b"]\\-^", byte)])?,
            2 | 3 => text.extend_from_slice(&[byte, b'-', byte.saturating_add(2)])?,
            4 => text.extend_from_slice(&[byte, b'-', random.one_of(b"-^ab9z", byte)])?,
            _ => text.push(byte)?,
        }
    }
    match random.below(60) {
        0 => {}
        1 => text.push(b'\\')?,
        _ => text.push(b']')?,
    }
    Ok(())
}

// Puts so many classes, each of 64 runs.
fn put_wide(text: &mut Vec<u8>, classes: usize) -> Result<(), AllocError> {
    for _ in 0..classes {
        text.push(b'[')?;
        for half in 64..128u8 {
            text.push(half.saturating_add(half))?;
        }
        text.push(b']')?;
    }
    Ok(())
}
