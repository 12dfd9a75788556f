// What the calls of a history are drawn from.
use crate::random::Random;
use crate::trial::names::Subject;
use std::alloc::{AllocError, Global};

#[derive(Drop)]
pub(crate) struct Plan {
    // the codes of most symbols
    pub(crate) alphabet: Vec<u32>,
    // the last code
    pub(crate) last: u32,
    // whether symbols may be of any code, so that there are many steps to keep
    pub(crate) any: bool,
    // most rules have numbers below this
    pub(crate) numbers: u32,
    // before a few calls there is a change once in so many times
    pub(crate) changes: usize,
    // how many symbols most rules have at most
    pub(crate) leaves: usize,
    pub(crate) rounds: usize,
    // the first edition
    pub(crate) edition: u32,
}

impl Plan {
    // A random plan.
    pub(crate) fn new(
        heap: Global,
        random: &mut Random,
        subject: Subject,
    ) -> Result<Plan, AllocError> {
        let any = random.once_in(12);
        Ok(Plan {
            alphabet: alphabet(heap, random, subject)?,
            last: subject.last(),
            any,
            numbers: random.one_of(&[2, 4, 6, 6, 8, 64], 6),
            changes: if any { 20 } else { 2 },
            leaves: random.below(8).saturating_add(1),
            rounds: if any { 60 } else { 12 },
            edition: edition(random),
        })
    }

    // A code of the alphabet, or any code, where the plan says so.
    pub(crate) fn code(&self, random: &mut Random) -> u32 {
        if self.any {
            random.word() & self.last
        } else {
            random.one_of(&self.alphabet, 0)
        }
    }
}

// A first edition: 0, any, or one of the last.
fn edition(random: &mut Random) -> u32 {
    match random.below(12) {
        0 => u32::MAX.saturating_sub(random.word_below(12)),
        1..=3 => random.word(),
        _ => 0,
    }
}

fn alphabet(heap: Global, random: &mut Random, subject: Subject) -> Result<Vec<u32>, AllocError> {
    match subject {
        Subject::Events => events(heap, random),
        Subject::Numbers => Vec::from_slice(heap, &[48, 53, 57, 46, 109]),
        Subject::Patterns => letters(heap, random),
        Subject::Bytes | Subject::Templates => bytes(heap, random),
    }
}

// A few letters and digits, or such as have a meaning in a class.
fn letters(heap: Global, random: &mut Random) -> Result<Vec<u32>, AllocError> {
    match random.below(4) {
        0 => Vec::from_slice(heap, &[97, 98]),
        1 => Vec::from_slice(heap, &[107, 48, 52, 57]),
        2 => Vec::from_slice(heap, &[97, 98, 99, 100, 45]),
        _ => Vec::from_slice(heap, &[94, 97, 122, 45, 65]),
    }
}

// A few codes of bytes that follow each other, or a few digits and a letter.
fn bytes(heap: Global, random: &mut Random) -> Result<Vec<u32>, AllocError> {
    if random.once_in(3) {
        return Vec::from_slice(heap, &[48, 49, 57, 97]);
    }
    let first = random.word_below(252);
    let mut codes = Vec::new(heap);
    for code in 0..random.word_below(3).saturating_add(2) {
        codes.push(first.saturating_add(code))?;
    }
    Ok(codes)
}

// Codes of a few events, with few kinds among them.
fn events(heap: Global, random: &mut Random) -> Result<Vec<u32>, AllocError> {
    let mut codes = Vec::new(heap);
    for _ in 0..random.below(4).saturating_add(2) {
        let machine = random.word_below(16);
        let kind = random.one_of(&[0, 1, 5, 4095], 0);
        codes.push(machine.saturating_mul(4096).saturating_add(kind))?;
    }
    Ok(codes)
}
