//! The commands over a description alone.
ghost use Rattle.std.specs.Prelude.{◌≡◌, ◌∷◌, Some, IfSome, codes, map, string_bytes};
ghost use Rattle.std.specs.Option.{option_map};
ghost use Rattle.command_words.specs.Requests.{Request, Asks};
ghost use Rattle.command_words.specs.Asked.{request_of};

use crate::commands::Command;
use crate::words::file_name;

/// The operands of `fmt`.
pub fn format_command(operands: &[String]) -> Option<Command<'_>>
    ensures found { IfSome result (λ c. Asks (codes "fmt" ∷ map string_bytes operands.now) (request_of c)) }
    ensures only { (r : Request) → Asks (codes "fmt" ∷ map string_bytes operands.now) r → option_map request_of result ≡ Some r }
{
    let [description] = operands else {
        return None;
    };
    let description = file_name(description.as_str())?;
    Some(Command::Format { description })
}

/// The operands of `check`.
pub fn check_command(operands: &[String]) -> Option<Command<'_>>
    ensures found { IfSome result (λ c. Asks (codes "check" ∷ map string_bytes operands.now) (request_of c)) }
    ensures only { (r : Request) → Asks (codes "check" ∷ map string_bytes operands.now) r → option_map request_of result ≡ Some r }
{
    let [description] = operands else {
        return None;
    };
    let description = file_name(description.as_str())?;
    Some(Command::Check { description })
}

/// The operands of `verilog`.
pub fn verilog_command(operands: &[String]) -> Option<Command<'_>>
    ensures found { IfSome result (λ c. Asks (codes "verilog" ∷ map string_bytes operands.now) (request_of c)) }
    ensures only { (r : Request) → Asks (codes "verilog" ∷ map string_bytes operands.now) r → option_map request_of result ≡ Some r }
{
    let [description] = operands else {
        return None;
    };
    let description = file_name(description.as_str())?;
    Some(Command::Verilog { description })
}
