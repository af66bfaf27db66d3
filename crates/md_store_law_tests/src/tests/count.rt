//! The laws and the worked certificates of md_store_counts are ones that a caller can name.

use md_store_counts::{certificates_are_few, worked_counts};

#[test]
fn certificates_name_few() {
    certificates_are_few();
    worked_counts();
}
