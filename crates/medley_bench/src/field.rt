//! A field of the order book's shape that is laid, read off and compacted.

use crate::fill::contents_for;
use md_book::{LEVELS, MAPS};
use md_store_law::read_off;
use md_store_layout::{compact, lay, needed};
use md_words::Shape;
use std::alloc::{AllocError, Global};

const BUCKETS: u32 = 65_536;

/// How many orders a field holds, and for how many lanes it is laid, with how many nodes each.
#[derive(Clone, Copy)]
pub(crate) struct Sizing {
    pub orders: u32,
    pub lanes: u32,
    pub nodes: u32,
}

/// How many words a field has, and how many nodes its contents need.
#[derive(Clone, Copy)]
pub(crate) struct Sizes {
    pub words: u64,
    pub nodes: u64,
}

/// Fills contents with so many orders, lays them, reads them off and lays them anew. `None` if
/// there is no such field, or if what is read off needs another number of nodes.
pub(crate) fn measured(alloc: Global, sizing: Sizing) -> Result<Option<Sizes>, AllocError> {
    let contents = contents_for(alloc, sizing.orders)?;
    let nodes = needed(&contents);
    let Ok(base) = u32::try_from(nodes) else {
        return Ok(None);
    };
    let Ok(shape) = Shape::new(sizing.lanes, sizing.nodes, base, 1, MAPS, BUCKETS, LEVELS) else {
        return Ok(None);
    };
    let words = lay(alloc, &shape, &contents)?;
    let read = read_off(alloc, &shape, &words)?;
    if needed(&read) != nodes {
        return Ok(None);
    }
    let (_shape, compacted) = compact(alloc, &shape, words)?;
    Ok(Some(Sizes {
        words: compacted.len() as u64,
        nodes,
    }))
}
