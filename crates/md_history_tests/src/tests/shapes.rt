//! The numbers of worked fields.

use crate::tests::same;
use md_words::limits::{FEW_BUCKETS, MANY_BUCKETS};
use md_words::{Shape, ShapeFault};

// How many words a shape has.
fn words_of(own: (u32, u32, u32, u32), kept: (u32, u32, u32)) -> Result<u64, ShapeFault> {
    let (lanes, nodes, base, tries) = own;
    let (maps, buckets, queues) = kept;
    let shape = Shape::new(lanes, nodes, base, tries, maps, buckets, queues)?;
    Ok(shape.words())
}

// The first word of the bucket of a key. A map has so many buckets.
fn head_of(buckets: u32, key: u64) -> Result<u32, ShapeFault> {
    let shape = Shape::new(1, 1, 0, 1, 1, buckets, 0)?;
    Ok(shape.map_head(0, key))
}

#[test]
fn shapes(rt: HostRuntime) {
    for (own, kept, want) in [
        ((1, 1, 0, 1), (1, 1, 0), Ok(646)),
        ((2, 16, 1, 4), (1, 64, 1), Ok(1448)),
        ((8, 1_048_576, 0, u32::MAX), (1, 1, 0), Ok(25170954)),
        ((65, 0, 0, 1), (1, 1, 0), Err(ShapeFault::Lanes)),
        ((1, 0, 0, 1), (1, 1, 0), Err(ShapeFault::Nodes)),
        ((1, 1, 4194305, 1), (1, 1, 0), Err(ShapeFault::Base)),
        ((1, 1, 0, 0), (1, 1, 0), Err(ShapeFault::Tries)),
        ((1, 1, 0, 1), (17, 1, 0), Err(ShapeFault::Maps)),
        ((1, 1, 0, 1), (1, 0, 0), Err(ShapeFault::Buckets)),
        ((1, 1, 0, 1), (1, 1, 4097), Err(ShapeFault::Queues)),
        (
            (8, 8388608, 0, 1),
            (1, 1, 0),
            Err(ShapeFault::TooLarge { words: 201331722 }),
        ),
    ] {
        same(&rt, &words_of(own, kept), &want);
    }
}

// The name of an order book's first order, at line 1 of caller 1.
const FIRST_NAME: u64 = (1 << 32) + 1;

#[test]
fn buckets(rt: HostRuntime) {
    for (buckets, key, want) in [
        (64, FIRST_NAME, 2),
        (FEW_BUCKETS, FIRST_NAME, 14_272),
        (MANY_BUCKETS, FIRST_NAME, 69_570),
        (MANY_BUCKETS, 131_197, 131_198),
    ] {
        same(&rt, &head_of(buckets, key), &Ok(want));
    }
}
