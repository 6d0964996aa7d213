//! Keys of tiles as tables write them.

use crate::values::push_word;
use geom::TileKey;
use std::alloc::{AllocError, Global};

/// Adds a key.
fn push_key(alloc: Global, key: TileKey, text: &mut String) -> Result<(), AllocError> {
    let TileKey { layer, x, y, stamp } = key;
    let word = format!(in alloc; "{layer}/{x}/{y}/{stamp}")?;
    push_word(text, word.as_str())
}

/// The text of keys of tiles, each `LAYER/X/Y/STAMP`, with blanks between; `-` if there are none.
pub fn keys_text(alloc: Global, keys: &[TileKey]) -> Result<String, AllocError> {
    if keys.is_empty() {
        return "-".to_string(alloc);
    }
    let mut text = String::new(alloc);
    for key in keys {
        push_key(alloc, *key, &mut text)?;
    }
    Ok(text)
}
