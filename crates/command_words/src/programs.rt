//! The commands over sources, objects and images, and those that draw programs.
ghost use Rattle.std.specs.Prelude.{◌≡◌, ◌∷◌, [], ℕ, Some, IsTrue, IfSome, ◌↔◌, codes, map, string_bytes, decimal};
ghost use Rattle.std.specs.Option.{option_map};
ghost use Rattle.std.specs.List.{AllByRecursion};
ghost use Rattle.command_words.specs.Requests.{Request, Asks, IsDraw, AreObjectNames, IsFileName};
ghost use Rattle.command_words.specs.Asked.{request_of};

use crate::commands::Command;
use crate::words::{count_up_to, file_name, two_files};
use lisa_words::canonical_decimal;

/// The operands of `asm`.
pub fn assemble_command(operands: &[String]) -> Option<Command<'_>>
    ensures found { IfSome result (λ c. Asks (codes "asm" ∷ map string_bytes operands.now) (request_of c)) }
    ensures only { (r : Request) → Asks (codes "asm" ∷ map string_bytes operands.now) r → option_map request_of result ≡ Some r }
{
    let (description, source) = two_files(operands)?;
    Some(Command::Assemble {
        description,
        source,
    })
}

/// The operands of `dis`.
pub fn disassemble_command(operands: &[String]) -> Option<Command<'_>>
    ensures found { IfSome result (λ c. Asks (codes "dis" ∷ map string_bytes operands.now) (request_of c)) }
    ensures only { (r : Request) → Asks (codes "dis" ∷ map string_bytes operands.now) r → option_map request_of result ≡ Some r }
{
    let (description, image) = two_files(operands)?;
    Some(Command::Disassemble { description, image })
}

// Whether each of these words names a file.
fn are_file_names(words: &[String]) -> bool
    ensures { IsTrue result ↔ AllByRecursion IsFileName (map string_bytes words.now) }
{
    let [first, rest @ ..] = words else {
        return true;
    };
    if file_name(first.as_str()).is_none() {
        return false;
    }
    are_file_names(rest)
}

// The names of from 1 to 32 objects.
fn object_names(words: &[String]) -> Option<&[String]>
    ensures found { IfSome result (λ objects. (objects.now ≡ words.now) × AreObjectNames (map string_bytes objects.now)) }
    ensures only { AreObjectNames (map string_bytes words.now) → option_map (λ objects. objects.now) result ≡ Some words.now }
{
    if words.is_empty() || words.len() > 32 || !are_file_names(words) {
        return None;
    }
    Some(words)
}

/// The operands of `link`.
pub fn link_command(operands: &[String]) -> Option<Command<'_>>
    ensures found { IfSome result (λ c. Asks (codes "link" ∷ map string_bytes operands.now) (request_of c)) }
    ensures only { (r : Request) → Asks (codes "link" ∷ map string_bytes operands.now) r → option_map request_of result ≡ Some r }
{
    let [description, objects @ ..] = operands else {
        return None;
    };
    let description = file_name(description.as_str())?;
    let objects = object_names(objects)?;
    Some(Command::Link {
        description,
        objects,
    })
}

// The numbers of a program that is drawn: the one that it is drawn from, and how many instructions it has.
fn draw(number: &str, count: &str) -> Option<(u64, u32)>
    ensures found { IfSome result (λ n. (number.now ≡ decimal n.0) × (count.now ≡ decimal n.1) × IsDraw n.0 n.1) }
    ensures only { (m n : ℕ) → number.now ≡ decimal m → count.now ≡ decimal n → IsDraw m n → result ≡ Some (m, n) }
{
    let number = canonical_decimal(number.as_bytes())?;
    let count = count_up_to(count, 65_536)?;
    Some((number, count))
}

/// The operands of `gen`.
pub fn generate_command(operands: &[String]) -> Option<Command<'_>>
    ensures found { IfSome result (λ c. Asks (codes "gen" ∷ map string_bytes operands.now) (request_of c)) }
    ensures only { (r : Request) → Asks (codes "gen" ∷ map string_bytes operands.now) r → option_map request_of result ≡ Some r }
{
    let [description, number, count] = operands else {
        return None;
    };
    let description = file_name(description.as_str())?;
    let (number, count) = draw(number.as_str(), count.as_str())?;
    Some(Command::Generate {
        description,
        number,
        count,
    })
}

// The words behind `soak`, one by one.
fn soak_of<'a>(
    description: &'a str,
    verilog: &'a str,
    number: &str,
    count: &str,
    edges: &str,
) -> Option<Command<'a>>
    ensures found { IfSome result (λ c. Asks (codes "soak" ∷ description.now ∷ verilog.now ∷ number.now ∷ count.now ∷ edges.now ∷ []) (request_of c)) }
    ensures only { (r : Request) → Asks (codes "soak" ∷ description.now ∷ verilog.now ∷ number.now ∷ count.now ∷ edges.now ∷ []) r → option_map request_of result ≡ Some r }
{
    let description = file_name(description)?;
    let verilog = file_name(verilog)?;
    let (number, count) = draw(number, count)?;
    let edges = count_up_to(edges, 1_000_000)?;
    Some(Command::Soak {
        description,
        verilog,
        number,
        count,
        edges,
    })
}

/// The operands of `soak`.
pub fn soak_command(operands: &[String]) -> Option<Command<'_>>
    ensures found { IfSome result (λ c. Asks (codes "soak" ∷ map string_bytes operands.now) (request_of c)) }
    ensures only { (r : Request) → Asks (codes "soak" ∷ map string_bytes operands.now) r → option_map request_of result ≡ Some r }
{
    let [description, verilog, number, count, edges] = operands else {
        return None;
    };
    soak_of(
        description.as_str(),
        verilog.as_str(),
        number.as_str(),
        count.as_str(),
        edges.as_str(),
    )
}
