//! The theories of lists, queues and stores, fields that are read off, and contents that are laid.

ghost use Rattle.std.specs.Prelude.{◌≡◌, ◌<◌, length, OnOk};

use md_history::Contents;
use md_store_layout::needed;
use std::alloc::{AllocError, AllocGlobal, Global};
use std::fmt::Debug;
use std::process::Abort;

mod count;
mod hash;
mod laying;
mod list;
mod queue;
mod reading;
mod theory;

// What was found is what was wanted. (A call is proved sooner than an `assert_eq!`.)
fn same<T: PartialEq + Debug>(rt: &impl Abort, found: &T, wanted: &T) {
    assert_eq!(rt; *found, *wanted);
}

// Sets the value of a key.
fn put(contents: &mut Contents, map: u32, key: u64, value: u64) -> Result<(), AllocError>
    requires { map < length contents.old.maps }
    ensures maps { OnOk result (length contents.new.maps ≡ length contents.old.maps) }
    ensures queues { OnOk result (length contents.new.queues ≡ length contents.old.queues) }
{
    contents.put(map, key, value)?;
    Ok(())
}

// Appends a value to a queue.
fn push(contents: &mut Contents, queue: u32, value: u64) -> Result<(), AllocError>
    requires { queue < length contents.old.queues }
    ensures { OnOk result (length contents.new.queues ≡ length contents.old.queues) }
{
    contents.push(queue, value)?;
    Ok(())
}

// A map with these pairs, and a queue with these values.
fn contents_of(
    alloc: Global,
    pairs: &[(u64, u64)],
    values: &[u64],
) -> Result<Contents, AllocError> {
    let mut contents = Contents::empty(alloc, 1, 1)?;
    for (key, value) in pairs {
        put(&mut contents, 0, *key, *value)?;
    }
    for value in values {
        push(&mut contents, 0, *value)?;
    }
    Ok(contents)
}

// Both have the same maps and the same queues.
fn assert_same(rt: &impl Abort, found: &Contents, want: &Contents) {
    same(
        rt,
        &(found.maps(), found.queues()),
        &(want.maps(), want.queues()),
    );
}

// The contents need so many nodes.
fn assert_nodes(rt: &impl Abort, contents: &Contents, nodes: u64) {
    same(rt, &needed(contents), &nodes);
}

// The contents need so many nodes, and are a map with these pairs and a queue with these values.
fn assert_contents<R: Abort + AllocGlobal>(
    rt: &R,
    found: &Contents,
    nodes: u64,
    pairs: &[(u64, u64)],
    values: &[u64],
) {
    assert_nodes(rt, found, nodes);
    let want = contents_of(rt.alloc(), pairs, values).expect(rt, "memory");
    assert_same(rt, found, &want);
}
