// Random runs of commands.
use crate::random::Random;
use crate::trial::plan::Plan;
use std::alloc::{AllocError, Global};

// A run, most often a good one of few symbols, else of many, or a damaged one.
pub(crate) fn run(heap: Global, random: &mut Random, plan: &Plan) -> Result<Vec<u8>, AllocError> {
    match random.below(40) {
        0 => {
            let leaves = random.below(300).saturating_add(20);
            good(heap, random, plan, leaves, 1)
        }
        10 => long(heap, random, plan),
        1 => good(heap, random, plan, 50, 9),
        2..=9 => damaged(heap, random, plan),
        _ => {
            let leaves = random.below(plan.leaves).saturating_add(1);
            good(heap, random, plan, leaves, 2)
        }
    }
}

// A run of one symbol, as long as a run may be, or a little shorter or longer.
fn long(heap: Global, random: &mut Random, plan: &Plan) -> Result<Vec<u8>, AllocError> {
    let mut bytes = Vec::new(heap);
    put_symbol(&mut bytes, random, plan)?;
    for _ in 0..random.below(4).saturating_add(1019) {
        bytes.push(random.one_of(b"SPO", b'S'))?;
    }
    Ok(bytes)
}

// A run of exactly so many symbols, joined, or either of them.
pub(crate) fn filling(
    heap: Global,
    random: &mut Random,
    plan: &Plan,
    symbols: usize,
) -> Result<Vec<u8>, AllocError> {
    let mut bytes = Vec::new(heap);
    for at in 0..symbols {
        put_symbol(&mut bytes, random, plan)?;
        if at > 0 {
            bytes.push(random.one_of(b"JA", b'J'))?;
        }
    }
    Ok(bytes)
}

// A run of so many symbols. After each one, two of those that wait are made one, once in so many times; so that it may have too
// many that wait.
fn good(
    heap: Global,
    random: &mut Random,
    plan: &Plan,
    leaves: usize,
    times: usize,
) -> Result<Vec<u8>, AllocError> {
    let mut bytes = Vec::new(heap);
    let mut waiting: usize = 0;
    for _ in 0..leaves {
        put_leaf(&mut bytes, random, plan)?;
        put_sign(&mut bytes, random)?;
        waiting = waiting.saturating_add(1);
        if waiting > 1 && (random.once_in(times) || (times < 9 && waiting > 30)) {
            put_pair(&mut bytes, random)?;
            waiting = waiting.saturating_sub(1);
        }
    }
    for _ in 1..waiting {
        put_pair(&mut bytes, random)?;
    }
    Ok(bytes)
}

// Puts a command that takes none.
fn put_leaf(bytes: &mut Vec<u8>, random: &mut Random, plan: &Plan) -> Result<(), AllocError> {
    match random.below(12) {
        0 => Ok(bytes.push(b'E')?),
        1..=3 => {
            let a = plan.code(random);
            let b = plan.code(random);
            bytes.push(b'R')?;
            put_code(bytes, a.min(b))?;
            put_code(bytes, a.max(b))
        }
        4..=7 if plan.any => {
            bytes.push(b'R')?;
            put_code(bytes, 0)?;
            put_code(bytes, plan.last)
        }
        _ => put_symbol(bytes, random, plan),
    }
}

// Puts the command of one code.
fn put_symbol(bytes: &mut Vec<u8>, random: &mut Random, plan: &Plan) -> Result<(), AllocError> {
    bytes.push(b'C')?;
    put_code(bytes, plan.code(random))
}

// Puts a code, the high byte first.
fn put_code(bytes: &mut Vec<u8>, code: u32) -> Result<(), AllocError> {
    bytes.push(((code / 256) & 0xff) as u8)?;
    bytes.push((code & 0xff) as u8)?;
    Ok(())
}

// Puts a command that takes one, perhaps.
fn put_sign(bytes: &mut Vec<u8>, random: &mut Random) -> Result<(), AllocError> {
    match random.below(9) {
        0 => bytes.push(b'S')?,
        1 => bytes.push(b'P')?,
        2 => bytes.push(b'O')?,
        _ => {}
    }
    Ok(())
}

// Puts a command that takes two, and perhaps one that takes their one.
fn put_pair(bytes: &mut Vec<u8>, random: &mut Random) -> Result<(), AllocError> {
    let letter = random.one_of(b"JJA", b'J');
    bytes.push(letter)?;
    put_sign(bytes, random)
}

// A good run with one thing wrong, most often.
fn damaged(heap: Global, random: &mut Random, plan: &Plan) -> Result<Vec<u8>, AllocError> {
    let leaves = random.below(6);
    let mut bytes = good(heap, random, plan, leaves, 2)?;
    let at = random.below(bytes.len().saturating_add(1)).min(bytes.len());
    let byte = (random.number() & 0xff) as u8;
    let letter = random.one_of(b"ECRJASPO", b'E');
    match random.below(6) {
        0 => bytes.truncate(at),
        1 => bytes.insert(at, letter)?,
        2 => bytes.push(letter)?,
        3 => change(&mut bytes, at, byte),
        4 => change(&mut bytes, at, letter),
        _ => {
            bytes.push(b'R')?;
            put_code(&mut bytes, plan.code(random).saturating_add(1))?;
            put_code(&mut bytes, plan.code(random))?;
        }
    }
    Ok(bytes)
}

fn change(bytes: &mut Vec<u8>, at: usize, to: u8) {
    if let Some(byte) = bytes.get_mut(at) {
        *byte = to;
    }
}
