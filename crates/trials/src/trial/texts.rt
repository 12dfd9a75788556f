// Random texts.
use crate::random::Random;
use crate::second::twin::Twin;
use crate::trial::bench::Bench;
use crate::trial::plan::Plan;
use crate::trial::samples::sample;
use std::alloc::AllocError;

// A text is cut to this length.
const LONGEST: usize = 20;

// So many texts are remembered at most.
const REMEMBERED: usize = 50;

// A new text, or one of those of this history before it.
pub(crate) fn text(bench: &mut Bench, twin: &Twin) -> Result<Vec<u32>, AllocError> {
    let known = bench.texts.len();
    let at = bench.random.below(known);
    if let Some(old) = bench.texts.get(at)
        && bench.random.once_in(4)
    {
        return old.clone();
    }
    let codes = new_text(&mut bench.random, &bench.plan, twin)?;
    let copy = codes.clone()?;
    match bench.texts.get_mut(at) {
        Some(old) if known >= REMEMBERED => *old = copy,
        _ => bench.texts.push(copy)?,
    }
    Ok(codes)
}

// A text of one to three pieces, each a sample of a rule in force or of any symbols; perhaps with one symbol changed.
fn new_text(random: &mut Random, plan: &Plan, twin: &Twin) -> Result<Vec<u32>, AllocError> {
    let mut codes = Vec::new(twin.heap);
    for _ in 0..random.below(3).saturating_add(1) {
        let piece = piece(random, plan, twin)?;
        codes.extend_from_slice(&piece)?;
    }
    codes.truncate(LONGEST);
    let at = random.below(LONGEST);
    if let Some(code) = codes.get_mut(at) {
        *code = plan.code(random);
    }
    Ok(codes)
}

fn piece(random: &mut Random, plan: &Plan, twin: &Twin) -> Result<Vec<u32>, AllocError> {
    let at = random.below(twin.rules.len());
    match twin.rules.get(at) {
        Some(rule) if !random.once_in(3) => sample(twin.heap, random, plan, rule),
        _ => symbols(random, plan, twin),
    }
}

// A few symbols; many, where they are of any code.
fn symbols(random: &mut Random, plan: &Plan, twin: &Twin) -> Result<Vec<u32>, AllocError> {
    let most = if plan.any { LONGEST } else { 5 };
    let mut codes = Vec::new(twin.heap);
    for _ in 0..random.below(most) {
        codes.push(plan.code(random))?;
    }
    Ok(codes)
}
