//! Scripts out of their texts.

use model_history::Script;
use page_layers::LayerTree;
use script_json::read_script;
use std::alloc::Global;
use test_table::LineFault;

/// The script of a text.
pub fn script_of(alloc: Global, text: &str) -> Result<Script, LineFault> {
    match read_script(alloc, text.as_bytes()) {
        Ok(script) => Ok(script),
        Err(_) => Err(LineFault::NoScript),
    }
}

/// The page of a script after all its main frames.
pub fn page_of(alloc: Global, text: &str) -> Result<LayerTree, LineFault> {
    let script = script_of(alloc, text)?;
    Ok(script.page(alloc)?)
}
