// Expressions as lists of nodes in postfix order: what a node is made of stands before it, and the last node is the whole.

#[derive(Clone, Copy)]
pub(crate) enum Node {
    Empty,
    // any one symbol whose code is from the first to the second
    Leaf(u32, u32),
    // one behind the other
    Join(usize, usize),
    // one or the other
    Either(usize, usize),
    // zero or more times
    Star(usize),
    // one or more times
    Plus(usize),
    // at most once
    Optional(usize),
}
