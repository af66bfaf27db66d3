//! Worked certificates of the cell, and where it begins.

ghost use Rattle.example_cell.specs.CellRows.{CellRow, BlankOpens};

/// One transaction that looks, inserts, looks, doesn't insert again, and removes; and the field in
/// which every word is 0 may be opened.
pub fn cell_rows()
    ensures row { CellRow }
    ensures opens { BlankOpens }
{}
