//! The words of the command line.
ghost use Rattle.std.specs.Prelude.{◌≡◌, Some, IfSome, map, string_bytes};
ghost use Rattle.std.specs.Option.{option_map};
ghost use Rattle.command_words.specs.Requests.{Request, Asks};
ghost use Rattle.command_words.specs.Asked.{request_of};

use crate::commands::Command;
use crate::descriptions::{check_command, format_command, verilog_command};
use crate::other_tools::{export_command, import_command, replay_command};
use crate::programs::{
    assemble_command, disassemble_command, generate_command, link_command, soak_command,
};
use crate::runs::occupancy_command;
use crate::tasks::task_command;
use hex_files::MemoryFormat;

/// What the words ask for, where they ask for something.
pub fn request(words: &[String]) -> Option<Command<'_>>
    ensures found { IfSome result (λ c. Asks (map string_bytes words.now) (request_of c)) }
    ensures only { (r : Request) → Asks (map string_bytes words.now) r → option_map request_of result ≡ Some r }
{
    let [command, operands @ ..] = words else {
        return None;
    };
    match command.as_str() {
        "fmt" => format_command(operands),
        "check" => check_command(operands),
        "verilog" => verilog_command(operands),
        "asm" => assemble_command(operands),
        "link" => link_command(operands),
        "dis" => disassemble_command(operands),
        "gen" => generate_command(operands),
        "soak" => soak_command(operands),
        "tohex" => export_command(MemoryFormat::Hex, operands),
        "tomem" => export_command(MemoryFormat::Memh, operands),
        "fromhex" => import_command(MemoryFormat::Hex, operands),
        "frommem" => import_command(MemoryFormat::Memh, operands),
        "unvcd" => replay_command(operands),
        "occupancy" => occupancy_command(operands),
        other => task_command(other, operands),
    }
}
