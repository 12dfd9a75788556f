// Random templates.
use crate::random::Random;
use crate::trial::plan::Plan;
use std::alloc::{AllocError, Global};

// A template, most often a short one, at times of no byte or of too many.
pub(crate) fn template_text(
    heap: Global,
    random: &mut Random,
    plan: &Plan,
) -> Result<Vec<u8>, AllocError> {
    let length = match random.below(10) {
        0 => random.below(40),
        1 => 31,
        2 => random.below(2),
        _ => random.below(5).saturating_add(1),
    };
    let mut bytes = Vec::new(heap);
    for _ in 0..length {
        let code = (plan.code(random) & 0xff) as u8;
        bytes.push(random.one_of(&[b'#', b'?', code, code], code))?;
    }
    Ok(bytes)
}
