//! The laws of one list, and the worked list, called once.

use md_list_law::{one_list_laws, worked_list};

#[test]
fn laws_and_worked_list() {
    one_list_laws();
    worked_list();
}
