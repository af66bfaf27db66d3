//! Small fields that are read off and compacted.

ghost use Rattle.std.specs.Prelude.{◌≡◌, ◌≤◌, IsTrue, replicate, IfOk};
ghost use Rattle.md_words.specs.Layout.{HasNumbers};
ghost use Rattle.md_store_law.specs.Field.{IsStoreField};
ghost use Rattle.md_store_law_tests.specs.Row.{row_words};
ghost use Rattle.md_store_law_tests.specs.UsedRow.{written, are_below};

use super::{assert_contents, same};
use md_store_law::read_off;
use md_store_layout::compact;
use md_words::Shape;
use std::alloc::{AllocError, AllocGlobal, Global};
use std::process::Abort;
use std::test::Fail;

// the word of the value 1 and the count 0
const UNIT: u64 = 1 << 32;

// The words of a field with key 5 and value 6 in its map, and with 9 in its queue.
fn row_words(alloc: Global, size: usize) -> Result<Vec<u64>, AllocError>
    requires { 75 ≤ size }
    ensures { IfOk result (λ words. words.items ≡ row_words size) }
{
    let mut words = vec![in alloc; 0; size]?;
    words[74] = 9;
    words[73] = 1;
    words[71] = 6;
    words[70] = 5;
    words[69] = 6 * UNIT;
    words[66] = 6 * UNIT;
    words[65] = 2 * UNIT;
    words[6] = 4 * UNIT;
    Ok(words)
}

// They are a store.
fn small_field(alloc: Global, shape: &Shape) -> Result<Vec<u64>, AllocError>
    requires { HasNumbers shape.now 2 16 3 4 1 64 1 }
    ensures { IfOk result (λ words. IsStoreField shape.now words.items) }
{
    let words = row_words(alloc, shape.words() as usize)?;
    Ok(words)
}

#[test]
fn a_small_field_is_read_off(rt: HostRuntime) {
    let shape = Shape::new(2, 16, 3, 4, 1, 64, 1).expect(&rt, "a shape");
    let words = small_field(rt.alloc(), &shape).expect(&rt, "memory");
    let contents = read_off(rt.alloc(), &shape, &words).expect(&rt, "memory");
    assert_contents(&rt, &contents, 3, &[(5, 6)], &[9]);
}

// A field of 0 after writes, each of a word and what it holds.
fn written(alloc: Global, size: usize, row: &[(usize, u64)]) -> Result<Vec<u64>, AllocError>
    requires { IsTrue (are_below size row.now) }
    ensures { IfOk result (λ words. words.items ≡ written row.now (replicate size 0)) }
{
    let mut words = vec![in alloc; 0; size]?;
    for (word, content) in row {
        words[*word] = *content;
    }
    Ok(words)
}

// The words of the field after use.
fn used_field(alloc: Global, shape: &Shape) -> Result<Vec<u64>, AllocError>
    requires { HasNumbers shape.now 2 16 3 4 1 64 1 }
    ensures { IfOk result (λ words. IsStoreField shape.now words.items) }
{
    let row = [
        (7, 12 * UNIT + 2),
        (65, 6 * UNIT + 4),
        (66, 8 * UNIT + 6),
        (69, 4 * UNIT + 2),
        (70, 1),
        (71, 12),
        (72, 6 * UNIT + 2),
        (73, 2),
        (74, 14),
        (75, 8 * UNIT + 2),
        (76, 3),
        (77, 16),
        (78, 10 * UNIT + 2),
        (79, 4),
        (80, 18),
        (82, 6),
        (83, 50),
        (84, 14 * UNIT + 4),
        (85, 70),
        (86, 52),
        (87, 17 * UNIT + 4),
        (88, 134),
        (89, 54),
        (90, 2),
        (91, 70),
        (92, 56),
        (93, 17 * UNIT + 6),
    ];
    let words = written(alloc, shape.words() as usize, &row)?;
    Ok(words)
}

#[test]
fn a_used_field_is_read_off(rt: HostRuntime) {
    let shape = Shape::new(2, 16, 3, 4, 1, 64, 1).expect(&rt, "a shape");
    let words = used_field(rt.alloc(), &shape).expect(&rt, "memory");
    let contents = read_off(rt.alloc(), &shape, &words).expect(&rt, "memory");
    assert_contents(&rt, &contents, 5, &[(6, 50), (134, 54)], &[16, 18]);
}

// The words of the field after it was compacted. Nodes 1 to 5 are the dummy, keys 6 and 134, and
// the values 16 and 18.
fn compacted_words(alloc: Global) -> Result<Vec<u64>, AllocError> {
    let row = [
        (7, 4 * UNIT),
        (65, 2 * UNIT),
        (66, 10 * UNIT),
        (69, 8 * UNIT),
        (70, 6),
        (71, 50),
        (72, 6 * UNIT),
        (73, 134),
        (74, 54),
        (76, 1),
        (77, 16),
        (78, 10 * UNIT),
        (79, 2),
        (80, 18),
    ];
    let words = written(alloc, 1460, &row)?;
    Ok(words)
}

// The shape and the words are those of the compacted field.
fn assert_compacted<R: Abort + AllocGlobal>(rt: &R, shape: &Shape, words: &[u64]) {
    let small = Shape::new(2, 16, 5, 4, 1, 64, 1).expect(rt, "a shape");
    let want = compacted_words(rt.alloc()).expect(rt, "memory");
    same(rt, &(*shape, words), &(small, want.as_slice()));
}

#[test]
fn a_used_field_is_compacted(rt: HostRuntime) -> Result<(), Fail> {
    let shape = Shape::new(2, 16, 3, 4, 1, 64, 1)?;
    let words = used_field(rt.alloc(), &shape)?;
    let (fresh, row) = compact(rt.alloc(), &shape, words).expect(&rt, "memory");
    let contents = read_off(rt.alloc(), &fresh, &row).expect(&rt, "memory");
    assert_compacted(&rt, &fresh, &row);
    assert_contents(&rt, &contents, 5, &[(6, 50), (134, 54)], &[16, 18]);
    Ok(())
}
