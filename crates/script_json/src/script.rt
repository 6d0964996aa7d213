//! Scripts, out of their texts and as their canonical texts.

ghost use Rattle.std.specs.Prelude.{◌≡◌, Ok, IfOk};
ghost use Rattle.serde_json.specs.Written.{compact_text};
ghost use Rattle.script_json.specs.Causes.{ScriptCause};
ghost use Rattle.script_json.specs.ScriptValue.{parts_data};

use crate::fault::PartsFault;
use crate::print::parts::print_parts;
use crate::read::parts::read_parts;
use crate::text_fault::TextFault;
use model_history::{Script, ScriptError};
use std::alloc::{AllocError, Global};

/// The script that these bytes are.
///
/// `Json` comes exactly if the bytes are no JSON text; `Shape` exactly if they are the text of a
/// value with this first fault; `Script` exactly if they are the text of a script, of whose commands,
/// applied in order from a blank page on, this is the first that is refused. `Memory` may come at any
/// text; it also represents a main frame of 2^32 commands or more (a text of fewer than 2^32 bytes has
/// none).
pub fn read_script(alloc: Global, bytes: &[u8]) -> Result<Script, TextFault>
    ensures { ScriptCause bytes.now result }
{
    match read_parts(alloc, bytes) {
        Ok(parts) => match Script::new(alloc, parts) {
            Ok(script) => Ok(script),
            Err(
                ScriptError::Command {
                    frame,
                    command,
                    fault,
                },
            ) => Err(TextFault::Script {
                frame,
                command,
                fault,
            }),
            Err(ScriptError::Memory(refused)) => Err(TextFault::Memory(refused)),
        },
        Err(PartsFault::Json) => Err(TextFault::Json),
        Err(PartsFault::Shape(fault)) => Err(TextFault::Shape(fault)),
        Err(PartsFault::Memory(refused)) => Err(TextFault::Memory(refused)),
    }
}

/// The canonical text of a script: one line without a newline, which reads back as the script.
pub fn print_script(alloc: Global, script: &Script) -> Result<Vec<u8>, AllocError>
    ensures text { IfOk result (λ b. b.items ≡ compact_text (parts_data script.now)) }
    ensures again { IfOk result (λ b. ScriptCause b.items (Ok script.now)) }
{
    script.is_accepted();
    print_parts(alloc, script.parts())
}
