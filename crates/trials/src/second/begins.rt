// Where the nodes of an expression can begin.
use crate::second::grid::Grid;
use crate::second::node::Node;
use std::alloc::{AllocError, Global};

// For each node (row) the places of a text where it can begin, when the text is read from its beginning as the whole expression: the
// whole begins at 0, and what a node is made of begins where the node does, or where what stands before it in the node can end.
pub(crate) fn begins(
    heap: Global,
    nodes: &[Node],
    parts: &Vec<Grid>,
    places: usize,
) -> Result<Grid, AllocError> {
    let mut grid = Grid::new(heap, nodes.len(), places)?;
    grid.put(nodes.len().saturating_sub(1), 0);
    for (at, node) in nodes.iter().enumerate().rev() {
        for place in 0..places {
            if grid.has(at, place) {
                pass_down(&mut grid, at, *node, parts, place, places);
            }
        }
    }
    Ok(grid)
}

// Lets what a node is made of begin, where the node begins at `place`.
fn pass_down(
    grid: &mut Grid,
    at: usize,
    node: Node,
    parts: &Vec<Grid>,
    place: usize,
    places: usize,
) {
    match node {
        Node::Empty | Node::Leaf(_, _) => {}
        Node::Join(a, b) => {
            grid.put(a, place);
            begin_behind(grid, b, parts.get(a), place, places);
        }
        Node::Either(a, b) => {
            grid.put(a, place);
            grid.put(b, place);
        }
        Node::Star(a) | Node::Plus(a) => {
            grid.put(a, place);
            begin_behind(grid, a, parts.get(at), place, places);
        }
        Node::Optional(a) => grid.put(a, place),
    }
}

// Lets a node begin wherever a part that begins at `place` ends.
fn begin_behind(grid: &mut Grid, node: usize, before: Option<&Grid>, place: usize, places: usize) {
    let Some(before) = before else {
        return;
    };
    for end in place..places {
        if before.has(place, end) {
            grid.put(node, end);
        }
    }
}
