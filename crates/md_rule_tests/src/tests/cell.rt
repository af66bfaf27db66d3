//! The theorem is called at the cell.

use example_cell::{cell_rows, cell_schedules};

#[test]
fn the_cell_keeps_every_schedule() {
    cell_schedules();
}

#[test]
fn the_cell_has_certificates_and_an_opening() {
    cell_rows();
}
