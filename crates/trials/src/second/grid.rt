// Grids of truth values.
use std::alloc::{AllocError, Global};

// Rows of the same width. A place outside holds false.
#[derive(Drop)]
pub(crate) struct Grid {
    width: usize,
    cells: Vec<bool>,
}

impl Grid {
    // All of it false.
    pub(crate) fn new(heap: Global, rows: usize, width: usize) -> Result<Grid, AllocError> {
        let cells = vec![in heap; false; rows.saturating_mul(width)]?;
        Ok(Grid { width, cells })
    }

    pub(crate) fn has(&self, row: usize, column: usize) -> bool {
        let at = row.wrapping_mul(self.width).wrapping_add(column);
        self.cells.get(at).copied().unwrap_or(false)
    }

    pub(crate) fn put(&mut self, row: usize, column: usize) {
        let at = row.wrapping_mul(self.width).wrapping_add(column);
        if let Some(cell) = self.cells.get_mut(at) {
            *cell = true;
        }
    }

    // Puts into a row all that a row of another grid has.
    pub(crate) fn join(&mut self, row: usize, other: &Grid, other_row: usize) {
        for column in 0..self.width {
            if other.has(other_row, column) {
                self.put(row, column);
            }
        }
    }

    // Puts into a row all that another row has.
    pub(crate) fn join_own(&mut self, row: usize, other_row: usize) {
        for column in 0..self.width {
            if self.has(other_row, column) {
                self.put(row, column);
            }
        }
    }
}
