//! The laws of md_nbtc_first are ones that a caller can name.

use example_cell::CellTheory;
use md_nbtc_first::{calm_fields_stay_low, first_attempts_stay_low};

#[test]
fn counts_stay_low() {
    calm_fields_stay_low::<CellTheory>();
    first_attempts_stay_low::<CellTheory>();
}
