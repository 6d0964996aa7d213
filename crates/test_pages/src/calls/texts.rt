//! Commands out of their texts, and what is asked of the texts of scripts.

use crate::scripts::script_of;
use page_layers::Command;
use script_json::{TextFault, print_script, read_parts, read_script};
use std::alloc::{AllocError, Global};
use test_table::{Answer, LineFault};

/// The text of a script of one main frame with these commands, which have commas between.
pub fn script_text(alloc: Global, commands: &str) -> Result<String, AllocError> {
    format!(in alloc;
        r#"{{"background":"000000","budget":0,"eventually":0,"inputs":[],"main":[[{commands}]],"priority":"same","raster_per_frame":0,"soon":0,"tile":16,"version":2,"viewport":[16,16]}}"#
    )
}

/// The commands of the last main frame of a script's text.
fn last_frame(alloc: Global, text: &str) -> Result<Vec<Command>, LineFault> {
    match read_parts(alloc, text.as_bytes()) {
        Ok(mut parts) => parts.main.pop().ok_or(LineFault::NoScript),
        Err(_) => Err(LineFault::NoScript),
    }
}

/// The commands of a text with commas between.
pub fn commands_of(alloc: Global, commands: &str) -> Result<Vec<Command>, LineFault> {
    let text = script_text(alloc, commands)?;
    last_frame(alloc, text.as_str())
}

/// Says what the fault of a text is.
fn say_fault(alloc: Global, fault: TextFault, answer: &mut Answer) -> Result<(), LineFault> {
    let text = format!(in alloc; "{fault}")?;
    answer.say(text.as_str(), &[]);
    Ok(())
}

/// The fault of a text.
pub fn reads(alloc: Global, text: &str, answer: &mut Answer) -> Result<(), LineFault> {
    match read_script(alloc, text.as_bytes()) {
        Ok(_) => {
            answer.say("a script", &[]);
            Ok(())
        }
        Err(fault) => say_fault(alloc, fault, answer),
    }
}

/// Whether the canonical text of a script is the text itself.
pub fn prints(alloc: Global, text: &str, answer: &mut Answer) -> Result<(), LineFault> {
    let script = script_of(alloc, text)?;
    let again = print_script(alloc, &script)?;
    if again.as_slice() == text.as_bytes() {
        answer.say("the same", &[]);
    } else {
        answer.say("another text", &[]);
    }
    Ok(())
}
