//! Contents take values.

ghost use Rattle.std.specs.Prelude.{◌<◌, length, IsTrue};

use crate::tests::same;
use md_history::Contents;
use std::alloc::{AllocError, Global};
use std::process::Abort;

// Whether there is such a map.
fn has_map(contents: &Contents, map: u32) -> bool
    ensures { IsTrue result → map < length contents.now.maps }
{
    (map as usize) < contents.maps().len()
}

// Sets the value of a key, if there is such a map.
pub(super) fn put(
    contents: &mut Contents,
    map: u32,
    key: u64,
    value: u64,
) -> Result<Option<u64>, AllocError> {
    if !has_map(contents, map) {
        return Err(AllocError);
    }
    contents.put(map, key, value)
}

// Sets a whole map, if there is such a map.
fn set_map(
    contents: &mut Contents,
    alloc: Global,
    map: u32,
    pairs: &[(u64, u64)],
) -> Result<(), AllocError> {
    if !has_map(contents, map) {
        return Err(AllocError);
    }
    contents.set_map(map, Vec::from_slice(alloc, pairs)?)
}

// Appends a value to a queue, if there is such a queue.
pub(super) fn push(contents: &mut Contents, queue: u32, value: u64) -> Result<(), AllocError> {
    if queue as usize >= contents.queues().len() {
        return Err(AllocError);
    }
    contents.push(queue, value)
}

// How many pairs a map has, and the values of the keys 4, 5, 7 and 9. `None` if there is no such
// map.
fn map_has(contents: &Contents, map: u32) -> Option<[Option<u64>; 5]> {
    if !has_map(contents, map) {
        return None;
    }
    Some([
        Some(contents.map(map).len() as u64),
        contents.get(map, 4),
        contents.get(map, 5),
        contents.get(map, 7),
        contents.get(map, 9),
    ])
}

// A map has this.
pub(super) fn map_is(
    rt: &impl Abort,
    contents: &Contents,
    map: u32,
    want: Option<[Option<u64>; 5]>,
) {
    same(rt, &map_has(contents, map), &want);
}

// How many values a queue has. `None` if there is no such queue.
pub(super) fn queue_len(contents: &Contents, queue: u32) -> Option<u64> {
    if queue as usize >= contents.queues().len() {
        return None;
    }
    Some(contents.queue(queue).len() as u64)
}

// How many values a queue has, and its first four values. `None` if there is no such queue.
fn queue_has(contents: &Contents, queue: u32) -> Option<[Option<u64>; 5]> {
    if queue as usize >= contents.queues().len() {
        return None;
    }
    let values = contents.queue(queue);
    Some([
        Some(values.len() as u64),
        values.get(0).copied(),
        values.get(1).copied(),
        values.get(2).copied(),
        values.get(3).copied(),
    ])
}

// A queue has this.
pub(super) fn queue_is(
    rt: &impl Abort,
    contents: &Contents,
    queue: u32,
    want: Option<[Option<u64>; 5]>,
) {
    same(rt, &queue_has(contents, queue), &want);
}

// What two puts at one key return. A value goes into a queue, too.
fn puts_of(contents: &mut Contents) -> Result<[Option<u64>; 2], AllocError> {
    let puts = [put(contents, 0, 5, 6)?, put(contents, 0, 5, 7)?];
    push(contents, 0, 1)?;
    Ok(puts)
}

#[test]
fn contents_take_values(rt: HostRuntime) {
    let mut contents = Contents::empty(rt.alloc(), 1, 1).expect(&rt, "memory");
    let puts = puts_of(&mut contents).expect(&rt, "memory");
    same(&rt, &puts, &[None, Some(6)]);
    map_is(
        &rt,
        &contents,
        0,
        Some([Some(1), None, Some(7), None, None]),
    );
    map_is(&rt, &contents, 1, None);
    queue_is(
        &rt,
        &contents,
        0,
        Some([Some(1), Some(1), None, None, None]),
    );
    queue_is(&rt, &contents, 1, None);
}

// One of two maps is set whole, and then set again, without pairs.
#[test]
fn a_map_is_set_whole(rt: HostRuntime) {
    let alloc = rt.alloc();
    let mut contents = Contents::empty(alloc, 2, 0).expect(&rt, "memory");
    put(&mut contents, 0, 5, 6).expect(&rt, "memory");
    put(&mut contents, 1, 4, 1).expect(&rt, "memory");
    set_map(&mut contents, alloc, 1, &[(9, 2), (7, 3), (9, 4)]).expect(&rt, "memory");
    map_is(
        &rt,
        &contents,
        0,
        Some([Some(1), None, Some(6), None, None]),
    );
    map_is(
        &rt,
        &contents,
        1,
        Some([Some(2), None, None, Some(3), Some(4)]),
    );
    set_map(&mut contents, alloc, 1, &[]).expect(&rt, "memory");
    map_is(&rt, &contents, 1, Some([Some(0), None, None, None, None]));
}
