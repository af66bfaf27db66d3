//! What the map has at first.

use crate::draws::{KEYS, mixed};
use md_history::Contents;
use std::alloc::{AllocError, Global};

/// About half of the keys, each with itself as its value.
pub(crate) fn half_full(alloc: Global) -> Result<Contents, AllocError> {
    let mut contents = Contents::empty(alloc, 1, 0)?;
    'keys: for key in 0..KEYS {
        if mixed(key) % 2 == 0 {
            contents.put(0, key, key)?;
        }
    }
    Ok(contents)
}
