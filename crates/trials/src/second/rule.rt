// Rules, and which of their places can come next in a text.
use crate::second::begins::begins;
use crate::second::node::Node;
use crate::second::parts::parts;
use std::alloc::{AllocError, Global};

// Names of one rule's leaves lie so far from those of the next one.
const SPAN: u64 = 65536;

// What a rule means: an expression, or a template.
#[derive(Drop)]
pub(crate) enum Meaning {
    Expression(Vec<Node>),
    Template(Vec<u8>),
}

// A rule in force. Its leaves are named by which rule it was of all that ever came into force, and by their number in it.
#[derive(Drop)]
pub(crate) struct Rule {
    pub(crate) number: u32,
    pub(crate) kind: u32,
    pub(crate) generation: u64,
    pub(crate) meaning: Meaning,
}

impl Rule {
    // The name of a leaf, or of the rule's end.
    fn name(&self, leaf: usize) -> u64 {
        self.generation
            .saturating_mul(SPAN)
            .saturating_add(leaf as u64)
    }

    // The name of the rule's end.
    pub(crate) fn end(&self) -> u64 {
        match &self.meaning {
            Meaning::Expression(nodes) => self.name(nodes.len()),
            Meaning::Template(bytes) => self.name(bytes.len()),
        }
    }

    // Whether a name is one of this rule's.
    pub(crate) fn owns(&self, name: u64) -> bool {
        name / SPAN == self.generation
    }

    // How many positions it needs.
    pub(crate) fn positions(&self) -> usize {
        match &self.meaning {
            Meaning::Expression(nodes) => nodes
                .iter()
                .filter(|node| matches!(node, Node::Leaf(_, _)))
                .count()
                .saturating_add(1),
            Meaning::Template(_) => 32,
        }
    }

    // Puts into the state behind each place of a text what can come next of this rule.
    pub(crate) fn come(
        &self,
        heap: Global,
        text: &[u32],
        states: &mut Vec<Vec<u64>>,
    ) -> Result<(), AllocError> {
        match &self.meaning {
            Meaning::Expression(nodes) => self.come_of_nodes(heap, nodes, text, states),
            Meaning::Template(bytes) => self.come_of_bytes(bytes, text, states),
        }
    }

    // The leaves that can begin at the place, and the end where the whole denotes the text up to it.
    fn come_of_nodes(
        &self,
        heap: Global,
        nodes: &Vec<Node>,
        text: &[u32],
        states: &mut Vec<Vec<u64>>,
    ) -> Result<(), AllocError> {
        let places = text.len().saturating_add(1);
        let parts = parts(heap, nodes, text)?;
        let begins = begins(heap, nodes, &parts, places)?;
        let whole = parts.last();
        for (place, state) in states.iter_mut().enumerate() {
            for (at, node) in nodes.iter().enumerate() {
                if matches!(node, Node::Leaf(_, _)) && begins.has(at, place) {
                    state.push(self.name(at))?;
                }
            }
            if whole.is_some_and(|whole| whole.has(0, place)) {
                state.push(self.end())?;
            }
        }
        Ok(())
    }

    // Where the text so far fits the template's beginning, which is not shorter, the place behind it.
    fn come_of_bytes(
        &self,
        bytes: &Vec<u8>,
        text: &[u32],
        states: &mut Vec<Vec<u64>>,
    ) -> Result<(), AllocError> {
        for (place, state) in states.iter_mut().enumerate() {
            let mut pairs = bytes.iter().zip(text).take(place);
            if place <= bytes.len() && pairs.all(|(byte, code)| fits(*byte, *code)) {
                state.push(self.name(place))?;
            }
        }
        Ok(())
    }
}

// Whether a byte of a template takes a code.
fn fits(byte: u8, code: u32) -> bool {
    match byte {
        b'?' => true,
        b'#' => (48..=57).contains(&code),
        _ => u32::from(byte) == code,
    }
}
