// The number book's rule by the second scanner: digits, perhaps '.' and digits, perhaps "mm".
use crate::second::node::Node;
use crate::second::rule::{Meaning, Rule};
use crate::second::twin::{Style, Twin};
use std::alloc::{AllocError, Global};

const DIGIT: Node = Node::Leaf(48, 57);

const POINT: Node = Node::Leaf(46, 46);

const M: Node = Node::Leaf(109, 109);

// [0-9]+(\.[0-9]+)?(mm)? in postfix order.
const NUMBER: [Node; 13] = [
    DIGIT,
    Node::Plus(0),
    POINT,
    DIGIT,
    Node::Plus(3),
    Node::Join(2, 4),
    Node::Optional(5),
    Node::Join(1, 6),
    M,
    M,
    Node::Join(8, 9),
    Node::Optional(10),
    Node::Join(7, 11),
];

impl Twin {
    // A new reader over the number book.
    pub(crate) fn numbers(heap: Global, edition: u32) -> Result<Twin, AllocError> {
        let mut twin = Twin::new(heap, Style::Expressions(255), edition);
        let nodes = Vec::from_slice(heap, &NUMBER)?;
        twin.rules.push(Rule {
            number: 0,
            kind: 1,
            generation: 0,
            meaning: Meaning::Expression(nodes),
        })?;
        Ok(twin)
    }
}
