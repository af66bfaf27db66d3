//! Contents that are laid: word for word, and read off again.

ghost use Rattle.std.specs.Prelude.{◌≤◌, IsTrue};
ghost use Rattle.md_history.specs.Engine.{needed};
ghost use Rattle.md_store_law.specs.Laid.{HasMapsAndQueues};

use super::{assert_nodes, assert_same, contents_of, push, put, same};
use md_history::Contents;
use md_store_law::read_off;
use md_store_layout::{lay, needed};
use md_words::{Shape, ShapeFault};
use std::alloc::{AllocError, AllocGlobal, Global};
use std::process::Abort;

// Whether contents are of the shape and fit it.
fn fit(shape: &Shape, contents: &Contents) -> bool
    ensures numbers { IsTrue result → HasMapsAndQueues shape.now contents.now }
    ensures room { IsTrue result → needed contents.now ≤ shape.now.base }
{
    let maps = contents.maps().len() == shape.maps as usize;
    let queues = contents.queues().len() == shape.queues as usize;
    maps && queues && needed(contents) <= shape.base as u64
}

// Lays contents, which fit the shape. Read off again, they are the same.
fn laid<R: Abort + AllocGlobal>(rt: &R, shape: &Shape, contents: &Contents) -> Vec<u64> {
    assert!(rt; fit(shape, contents));
    let words = lay(rt.alloc(), shape, contents).expect(rt, "memory");
    let back = read_off(rt.alloc(), shape, &words).expect(rt, "memory");
    assert_same(rt, &back, contents);
    words
}

// The words that aren't 0, with their places.
fn words_but_zero(alloc: Global, words: &[u64]) -> Result<Vec<(usize, u64)>, AllocError> {
    let mut found = Vec::new(alloc);
    for i in 0..words.len() {
        if words[i] != 0 {
            found.push((i, words[i]))?;
        }
    }
    Ok(found)
}

// Contents are laid as so many words, of which these aren't 0, and are read off again.
fn assert_laid<R: Abort + AllocGlobal>(
    rt: &R,
    contents: &Contents,
    shape: Result<Shape, ShapeFault>,
    size: usize,
    words: &[(usize, u64)],
) {
    let shape = shape.expect(rt, "a shape");
    let found = laid(rt, &shape, contents);
    let rest = words_but_zero(rt.alloc(), &found).expect(rt, "memory");
    same(rt, &(found.len(), rest.as_slice()), &(size, words));
}

// A map with these pairs and a queue with these values need so many nodes.
fn assert_needed<R: Abort + AllocGlobal>(rt: &R, pairs: &[(u64, u64)], values: &[u64], nodes: u64) {
    let contents = contents_of(rt.alloc(), pairs, values).expect(rt, "memory");
    assert_nodes(rt, &contents, nodes);
}

#[test]
fn nodes_of_small_contents(rt: HostRuntime) {
    assert_needed(&rt, &[], &[], 1);
    assert_needed(&rt, &[(5, 6)], &[], 2);
    assert_needed(&rt, &[(5, 6)], &[9], 3);
    assert_needed(&rt, &[(5, 6), (5, 7)], &[9], 3);
}

#[test]
fn small_contents_are_laid_word_for_word(rt: HostRuntime) {
    let contents = contents_of(rt.alloc(), &[(5, 6)], &[]).expect(&rt, "memory");
    let words = [(6, 4 << 32), (65, 2 << 32), (66, 2 << 32), (70, 5), (71, 6)].as_slice();
    let shape = Shape::new(2, 16, 2, 4, 1, 64, 1);
    assert_laid(&rt, &contents, shape, 1451, words);
}

#[test]
fn a_queued_value_is_laid_word_for_word(rt: HostRuntime) {
    let contents = contents_of(rt.alloc(), &[(5, 6)], &[9]).expect(&rt, "memory");
    let words = [
        (6, 4 << 32),
        (65, 2 << 32),
        (66, 6 << 32),
        (69, 6 << 32),
        (70, 5),
        (71, 6),
        (73, 1),
        (74, 9),
    ]
    .as_slice();
    let shape = Shape::new(2, 16, 3, 4, 1, 64, 1);
    assert_laid(&rt, &contents, shape, 1454, words);
}

#[test]
fn no_contents_are_laid_as_zeros(rt: HostRuntime) {
    let contents = Contents::empty(rt.alloc(), 1, 0).expect(&rt, "memory");
    assert_laid(&rt, &contents, Shape::new(1, 1, 0, 1, 1, 1, 0), 646, &[]);
}

// Two maps with ten keys or so in each of four buckets, put in falling order, and three queues: one
// without values, one with the least and the greatest, and a long one.
fn many<R: Abort + AllocGlobal>(rt: &R) -> Contents {
    let mut contents = Contents::empty(rt.alloc(), 2, 3).expect(rt, "memory");
    for i in 0..40u64 {
        put(&mut contents, 0, 1000 - 7 * i, i).expect(rt, "memory");
        put(&mut contents, 1, u64::MAX - 3 * i, i).expect(rt, "memory");
    }
    put(&mut contents, 0, 0, u64::MAX).expect(rt, "memory");
    push(&mut contents, 1, u64::MAX).expect(rt, "memory");
    push(&mut contents, 1, 0).expect(rt, "memory");
    push(&mut contents, 1, u64::MAX).expect(rt, "memory");
    for i in 0..1000u64 {
        push(&mut contents, 2, i * i).expect(rt, "memory");
    }
    contents
}

// The words at these places are these.
fn assert_words(rt: &impl Abort, words: &[u64], row: &[(usize, u64)]) {
    for (place, word) in row {
        let found = words.get(*place).copied();
        same(rt, &(*place, found), &(*place, Some(*word)));
    }
}

#[test]
fn many_contents_are_read_off_again(rt: HostRuntime) {
    let contents = many(&rt);
    let shape = Shape::new(1, 1, 1087, 1, 2, 4, 3).expect(&rt, "a shape");
    assert_nodes(&rt, &contents, 1087);
    let words = laid(&rt, &shape, &contents);
    // the least key of the first bucket is node 4, behind the three dummies; the last queue's tail
    // names the last node, whose rank is 1000
    let row = [
        (1, 8 << 32),
        (24, 0),
        (25, u64::MAX),
        (14, 2174 << 32),
        (3273, 1000),
        (3274, 998001),
        (3275, 0),
    ]
    .as_slice();
    assert_words(&rt, &words, row);
}
