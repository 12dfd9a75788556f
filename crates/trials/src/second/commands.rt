// Runs of commands, read by their indices: the nodes of the expression, or the first question that gets a no.
use crate::second::node::Node;
use std::alloc::{AllocError, Global};

// The number of the refusal, and its place.
#[derive(Clone, Copy)]
pub(crate) struct Fault {
    pub(crate) number: u64,
    pub(crate) place: usize,
}

// The nodes of the expression that a run spells, over codes up to the last one.
pub(crate) fn nodes(
    heap: Global,
    bytes: &[u8],
    last: u32,
) -> Result<Result<Vec<Node>, Fault>, AllocError> {
    let mut made = Vec::new(heap);
    let mut waiting = Vec::new(heap);
    let mut next = 0;
    for (place, letter) in bytes.iter().enumerate() {
        // an operand of the command before it
        if place < next {
            continue;
        }
        if let Some(number) = question(bytes, place, *letter, last, waiting.len()) {
            return Ok(Err(Fault { number, place }));
        }
        let node = node_of(bytes, place, *letter, &mut waiting);
        waiting.push(made.len())?;
        made.push(node)?;
        next = place.saturating_add(1).saturating_add(operands(*letter));
    }
    let place = bytes.len();
    Ok(match waiting.len() {
        1 => Ok(made),
        _ => Err(Fault { number: 11, place }),
    })
}

// How many bytes of operands a letter has.
fn operands(letter: u8) -> usize {
    match letter {
        b'C' => 2,
        b'R' => 4,
        _ => 0,
    }
}

// How many expressions a letter takes.
fn takes(letter: u8) -> usize {
    match letter {
        b'J' | b'A' => 2,
        b'S' | b'P' | b'O' => 1,
        _ => 0,
    }
}

// The code of which the high byte has this index.
fn code(bytes: &[u8], at: usize) -> Option<u32> {
    let high = *bytes.get(at)?;
    let low = *bytes.get(at.saturating_add(1))?;
    Some(256 * u32::from(high) + u32::from(low))
}

// The codes of the leaf of a command at a place, if it has them.
fn codes(bytes: &[u8], place: usize, letter: u8) -> Option<(u32, u32)> {
    let low = code(bytes, place.saturating_add(1))?;
    match letter {
        b'C' => Some((low, low)),
        _ => Some((low, code(bytes, place.saturating_add(3))?)),
    }
}

// The number of the first question about a command that gets a no.
fn question(bytes: &[u8], place: usize, letter: u8, last: u32, waiting: usize) -> Option<u64> {
    if !b"ECRJASPO".contains(&letter) {
        return Some(6);
    }
    if operands(letter) > 0 {
        let Some((low, high)) = codes(bytes, place, letter) else {
            return Some(7);
        };
        if low > last || high > last || low > high {
            return Some(8);
        }
    }
    if waiting < takes(letter) {
        return Some(9);
    }
    (takes(letter) == 0 && waiting >= 40).then_some(10)
}

// The node of a command of which every question got a yes. It takes its parts from those that wait.
fn node_of(bytes: &[u8], place: usize, letter: u8, waiting: &mut Vec<usize>) -> Node {
    match letter {
        b'E' => Node::Empty,
        b'C' | b'R' => {
            let (low, high) = codes(bytes, place, letter).unwrap_or((0, 0));
            Node::Leaf(low, high)
        }
        _ => {
            let last = waiting.pop().unwrap_or(0);
            match letter {
                b'S' => Node::Star(last),
                b'P' => Node::Plus(last),
                b'O' => Node::Optional(last),
                b'A' => Node::Either(waiting.pop().unwrap_or(0), last),
                _ => Node::Join(waiting.pop().unwrap_or(0), last),
            }
        }
    }
}
