// Objects, from their texts.
ghost use Rattle.std.specs.Prelude.{◌≡◌, ◌≤◌, ◌<◌, ◌^◌, ◌++◌, ◌==◌, [], ℕ, List, map, length, IfOk, IfErr};
ghost use Rattle.std.specs.List.{slice_split};
ghost use Rattle.std.specs.Option.{option_copied, option_to_list};
ghost use Rattle.text_lines.specs.Cuts.{parts_behind};
ghost use Rattle.lisa_object.specs.declared.faults.Stop.TheVariants.{NoMemory};
ghost use Rattle.lisa_object.specs.Seen.{HoldsSorted};
ghost use Rattle.lisa_object.specs.Gives.{Gives};
ghost use Rattle.lisa_object.specs.Objects.{PlainObject, object_line_tree, object_tree};
ghost use Rattle.lisa_object.specs.ObjectText.{object_text};
ghost use Rattle.lisa_object.specs.ObjectRules.{defined, IsObject};
ghost use Rattle.lisa_object.specs.LineMachine.{start, after};
ghost use Rattle.lisa_object.specs.ObjectReading.{is_new, next_line, lines_of, object_of};
ghost use Rattle.lisa_object.specs.ObjectGives.{IsThisObject, IsObjectRefusal};

use crate::faults::{ObjectFault, Stop};
use crate::object_line::line_at;
use crate::parts::{Object, ObjectLine};
use crate::rules::{Standing, after, may_follow};
use crate::words::{enter, is_end, is_last, line_number, opening};
use lisa_words::Name;
use std::alloc::Global;
use std::collections::BTreeSet;
use text_lines::cut;

// The name that a line defines, if it does.
fn defined_name(line: &ObjectLine) -> Option<&[u8]>
    ensures { defined (object_line_tree line.now) ≡ option_to_list (option_copied result) }
{
    match line {
        ObjectLine::Label(name) => Some(name.as_bytes()),
        ObjectLine::Equ(name, _) => Some(name.as_bytes()),
        _ => None,
    }
}

// Puts the name that a line defines to those that were seen, and answers whether it is new.
fn enter_defined(alloc: Global, seen: &mut BTreeSet<Name>, line: &ObjectLine) -> Result<bool, Stop>
    ensures new { (names : List (List ℕ)) → HoldsSorted seen.old names → IfOk result (λ new. (new ≡ is_new names (defined (object_line_tree line.now))) × HoldsSorted seen.new (defined (object_line_tree line.now) ++ names)) }
    ensures cause { IfErr result (λ e. e ≡ NoMemory) }
{
    match defined_name(line) {
        Some(name) => enter(alloc, seen, name),
        None => Ok(true),
    }
}

// The line behind others, where so many bytes are left from it on.
fn next_line(
    alloc: Global,
    seen: &mut BTreeSet<Name>,
    standing: Standing,
    place: usize,
    line: &[u8],
) -> Result<ObjectLine, Stop>
    requires wide { standing.width ≤ 64 }
    requires below { standing.below ≤ 64 }
    ensures exact { (names : List (List ℕ)) → HoldsSorted seen.old names → Gives object_line_tree result (next_line standing names line.now) }
    ensures seen { (names : List (List ℕ)) → HoldsSorted seen.old names → IfOk result (λ l. HoldsSorted seen.new (defined (object_line_tree l) ++ names)) }
    ensures wide { IfOk result (λ l. (after standing (object_line_tree l)).width ≤ 64) }
    ensures below { IfOk result (λ l. (after standing (object_line_tree l)).below ≤ 64) }
{
    let line = line_at(alloc, place, line)?;
    if !may_follow(standing, &line) {
        return Err(Stop::Misspelled { left: place });
    }
    if !enter_defined(alloc, seen, &line)? {
        return Err(Stop::Misspelled { left: place });
    }
    Ok(line)
}

// The lines up to `end`.
fn lines(alloc: Global, left: Option<&[u8]>) -> Result<Vec<ObjectLine>, Stop>
    ensures { Gives (λ v. map object_line_tree v.items) result (lines_of start [] (parts_behind 10 (option_copied left.entry))) }
{
    let mut all = Vec::new(alloc);
    let mut seen = BTreeSet::new(alloc);
    let mut standing = Standing {
        width: 0,
        cell: 0,
        below: 0,
    };
    let mut rest = left;
    'each: loop {
        let Some(text) = rest else {
            return Err(Stop::Misspelled { left: 0 });
        };
        let (line, behind) = cut(text, b'\n');
        if is_end(line) {
            return if is_last(behind) {
                Ok(all)
            } else {
                Err(Stop::Misspelled { left: text.len() })
            };
        }
        let line = next_line(alloc, &mut seen, standing, text.len(), line)?;
        standing = after(standing, &line);
        all.push(line)?;
        rest = behind;
    }
}

fn whole(alloc: Global, bytes: &[u8]) -> Result<Object, Stop>
    ensures { Gives object_tree result (object_of (slice_split (λ b. b == 10) bytes.now)) }
{
    let (line, left) = cut(bytes, b'\n');
    let Some(digest) = opening(b"object", line) else {
        return Err(Stop::Misspelled { left: bytes.len() });
    };
    let lines = lines(alloc, left)?;
    Ok(Object { digest, lines })
}

/// The object that the bytes spell. A refusal tells the number of the object that it is given.
pub fn read_object(alloc: Global, bytes: &[u8], object: u32) -> Result<Object, ObjectFault>
    requires { length bytes.now < 2 ^ 32 }
    // The bytes are the one spelling of what is answered.
    ensures found { IfOk result (λ o. IsObject (object_tree o) × (bytes.now ≡ object_text (object_tree o))) }
    // What has this spelling is answered, unless memory runs out.
    ensures only { (o : PlainObject) → IsObject o → bytes.now ≡ object_text o → IsThisObject o result }
    // No other refusal comes, and its line is one of the text.
    ensures fault { IfErr result (IsObjectRefusal object bytes.now) }
{
    match whole(alloc, bytes) {
        Ok(read) => Ok(read),
        Err(Stop::Misspelled { left }) => Err(ObjectFault::NotAnObject {
            object,
            line: line_number(bytes, left),
        }),
        Err(Stop::NoMemory) => Err(ObjectFault::NoMemory),
    }
}
