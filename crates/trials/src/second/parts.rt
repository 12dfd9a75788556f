// Which parts of a text each node of an expression denotes, by the definitions of joining, union and repetition of sets of texts. A
// node's grid holds, for places `from` and `to`, whether the node denotes the part of the text from the one to the other.
use crate::second::grid::Grid;
use crate::second::node::Node;
use std::alloc::{AllocError, Global};

// The grids of all nodes, over a text of these codes.
pub(crate) fn parts(heap: Global, nodes: &[Node], text: &[u32]) -> Result<Vec<Grid>, AllocError> {
    let mut done = Vec::with_capacity(heap, nodes.len())?;
    for node in nodes {
        let grid = node_parts(heap, *node, &done, text)?;
        done.push(grid)?;
    }
    Ok(done)
}

// The grid of a node, where those before it are done.
fn node_parts(
    heap: Global,
    node: Node,
    done: &Vec<Grid>,
    text: &[u32],
) -> Result<Grid, AllocError> {
    let none = Grid::new(heap, 0, 0)?;
    let of = |at: usize| done.get(at).unwrap_or(&none);
    let places = text.len().saturating_add(1);
    match node {
        Node::Empty => empty(heap, places),
        Node::Leaf(low, high) => leaf(heap, low, high, text),
        Node::Join(a, b) => joined(heap, of(a), of(b), places),
        Node::Either(a, b) => either(heap, of(a), of(b), places),
        Node::Star(a) => repeated(heap, of(a), places),
        Node::Plus(a) => {
            let more = repeated(heap, of(a), places)?;
            joined(heap, of(a), &more, places)
        }
        Node::Optional(a) => {
            let nothing = empty(heap, places)?;
            either(heap, of(a), &nothing, places)
        }
    }
}

fn empty(heap: Global, places: usize) -> Result<Grid, AllocError> {
    let mut grid = Grid::new(heap, places, places)?;
    for at in 0..places {
        grid.put(at, at);
    }
    Ok(grid)
}

fn leaf(heap: Global, low: u32, high: u32, text: &[u32]) -> Result<Grid, AllocError> {
    let places = text.len().saturating_add(1);
    let mut grid = Grid::new(heap, places, places)?;
    for (at, code) in text.iter().enumerate() {
        if low <= *code && *code <= high {
            grid.put(at, at.saturating_add(1));
        }
    }
    Ok(grid)
}

// A part of the one, and behind it a part of the other.
fn joined(heap: Global, a: &Grid, b: &Grid, places: usize) -> Result<Grid, AllocError> {
    let mut grid = Grid::new(heap, places, places)?;
    for from in 0..places {
        for between in from..places {
            if a.has(from, between) {
                grid.join(from, b, between);
            }
        }
    }
    Ok(grid)
}

fn either(heap: Global, a: &Grid, b: &Grid, places: usize) -> Result<Grid, AllocError> {
    let mut grid = Grid::new(heap, places, places)?;
    for from in 0..places {
        grid.join(from, a, from);
        grid.join(from, b, from);
    }
    Ok(grid)
}

// Zero or more times: nothing, or a part that is not empty and the rest, which begins later and is done before.
fn repeated(heap: Global, a: &Grid, places: usize) -> Result<Grid, AllocError> {
    let mut grid = empty(heap, places)?;
    for from in (0..places).rev() {
        for between in from..places {
            if from < between && a.has(from, between) {
                grid.join_own(from, between);
            }
        }
    }
    Ok(grid)
}
