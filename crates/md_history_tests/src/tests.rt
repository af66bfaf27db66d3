//! What no clause says: that calls succeed, what worked fields have, and what streams do that fail.

mod acts;
mod addresses;
mod bodies;
mod contents;
mod lines;
mod logs;
mod memory;
mod shapes;
mod standard;
mod words;

use std::fmt::Debug;
use std::process::Abort;

// What was found is what was wanted. (A call is proved sooner than an `assert_eq!`.)
fn same<T: PartialEq + Debug>(rt: &impl Abort, found: &T, wanted: &T) {
    assert_eq!(rt; *found, *wanted);
}
