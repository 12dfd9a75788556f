// Texts that a rule means, or nearly.
use crate::random::Random;
use crate::second::node::Node;
use crate::second::rule::{Meaning, Rule};
use crate::trial::plan::Plan;
use std::alloc::{AllocError, Global};

// A sample is cut to this length.
const LONGEST: usize = 24;

// A text that the rule means, if it is not cut.
pub(crate) fn sample(
    heap: Global,
    random: &mut Random,
    plan: &Plan,
    rule: &Rule,
) -> Result<Vec<u32>, AllocError> {
    match &rule.meaning {
        Meaning::Expression(nodes) => of_nodes(heap, random, nodes),
        Meaning::Template(bytes) => of_bytes(heap, random, plan, bytes),
    }
}

// A sample of each node, from those before it.
fn of_nodes(heap: Global, random: &mut Random, nodes: &Vec<Node>) -> Result<Vec<u32>, AllocError> {
    let mut samples = Vec::new(heap);
    for node in nodes {
        let sample = of_node(heap, random, *node, &samples)?;
        samples.push(sample)?;
    }
    Ok(samples.pop().unwrap_or(Vec::new(heap)))
}

fn of_node(
    heap: Global,
    random: &mut Random,
    node: Node,
    samples: &Vec<Vec<u32>>,
) -> Result<Vec<u32>, AllocError> {
    match node {
        Node::Empty => Ok(Vec::new(heap)),
        Node::Leaf(low, high) => {
            let codes = high.saturating_sub(low).saturating_add(1);
            Vec::from_slice(heap, &[low.saturating_add(random.word_below(codes))])
        }
        Node::Join(a, b) => together(heap, samples, &[a, b]),
        Node::Either(a, b) => together(heap, samples, &[random.one_of(&[a, b], a)]),
        Node::Star(a) => several(heap, random.below(3), samples, a),
        Node::Plus(a) => several(heap, random.below(2).saturating_add(1), samples, a),
        Node::Optional(a) => several(heap, random.below(2), samples, a),
    }
}

// The samples of these nodes, one behind the other.
fn together(
    heap: Global,
    samples: &Vec<Vec<u32>>,
    nodes: &[usize],
) -> Result<Vec<u32>, AllocError> {
    let mut text = Vec::new(heap);
    for node in nodes {
        if let Some(sample) = samples.get(*node) {
            text.extend_from_slice(sample)?;
        }
    }
    text.truncate(LONGEST);
    Ok(text)
}

// The sample of a node so many times.
fn several(
    heap: Global,
    times: usize,
    samples: &Vec<Vec<u32>>,
    node: usize,
) -> Result<Vec<u32>, AllocError> {
    match times {
        0 => Ok(Vec::new(heap)),
        1 => together(heap, samples, &[node]),
        _ => together(heap, samples, &[node, node]),
    }
}

fn of_bytes(
    heap: Global,
    random: &mut Random,
    plan: &Plan,
    bytes: &Vec<u8>,
) -> Result<Vec<u32>, AllocError> {
    let mut text = Vec::new(heap);
    for byte in bytes {
        let code = match *byte {
            b'#' => random.word_below(10).saturating_add(48),
            b'?' => plan.code(random),
            other => u32::from(other),
        };
        text.push(code)?;
    }
    text.truncate(LONGEST);
    Ok(text)
}
