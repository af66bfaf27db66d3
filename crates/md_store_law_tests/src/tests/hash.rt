//! The theorem over all schedules, called at hash tables and at one list, and what walks show of
//! hash tables.

use md_hash_law::{HashTheory, hash_table_schedules, one_list_schedules, worked_tables};
use md_list_law::list_facts;

#[test]
fn every_schedule() {
    one_list_schedules();
    hash_table_schedules();
}

#[test]
fn walks_of_hash_tables() {
    list_facts::<HashTheory>();
    worked_tables();
}
