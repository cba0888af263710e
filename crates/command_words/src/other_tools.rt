//! The commands over files of other tools: memories, and dumps of waves.
ghost use Rattle.std.specs.Prelude.{◌≡◌, ◌∷◌, Some, IfSome, codes, map, string_bytes};
ghost use Rattle.std.specs.Option.{option_map};
ghost use Rattle.command_words.specs.Requests.{Request, Asks, export_word, import_word};
ghost use Rattle.command_words.specs.Asked.{request_of};

use crate::commands::Command;
use crate::words::{file_name, some_word};
use hex_files::MemoryFormat;

/// The operands of `tohex` or `tomem`.
pub fn export_command(format: MemoryFormat, operands: &[String]) -> Option<Command<'_>>
    ensures found { IfSome result (λ c. Asks (export_word format ∷ map string_bytes operands.now) (request_of c)) }
    ensures only { (r : Request) → Asks (export_word format ∷ map string_bytes operands.now) r → option_map request_of result ≡ Some r }
{
    let [description, image, memory] = operands else {
        return None;
    };
    let description = file_name(description.as_str())?;
    let image = file_name(image.as_str())?;
    let memory = some_word(memory.as_str())?;
    Some(Command::Export {
        format,
        description,
        image,
        memory,
    })
}

/// The operands of `fromhex` or `frommem`.
pub fn import_command(format: MemoryFormat, operands: &[String]) -> Option<Command<'_>>
    ensures found { IfSome result (λ c. Asks (import_word format ∷ map string_bytes operands.now) (request_of c)) }
    ensures only { (r : Request) → Asks (import_word format ∷ map string_bytes operands.now) r → option_map request_of result ≡ Some r }
{
    let [description, file, memory] = operands else {
        return None;
    };
    let description = file_name(description.as_str())?;
    let file = file_name(file.as_str())?;
    let memory = some_word(memory.as_str())?;
    Some(Command::Import {
        format,
        description,
        file,
        memory,
    })
}

/// The operands of `unvcd`.
pub fn replay_command(operands: &[String]) -> Option<Command<'_>>
    ensures found { IfSome result (λ c. Asks (codes "unvcd" ∷ map string_bytes operands.now) (request_of c)) }
    ensures only { (r : Request) → Asks (codes "unvcd" ∷ map string_bytes operands.now) r → option_map request_of result ≡ Some r }
{
    let [dump] = operands else {
        return None;
    };
    let dump = file_name(dump.as_str())?;
    Some(Command::Replay { dump })
}
