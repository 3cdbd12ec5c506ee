// Reading: floats to whole numbers, cell by cell, and the host's row of bytes.
#![tactic(auto)]

pub mod host_cells;
pub mod host_row;
pub mod number;
pub mod own_cell;
