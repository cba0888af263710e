//! What commands look for, one after another.

ghost use Rattle.std.specs.Prelude.{ℕ, List, Option};
ghost use Rattle.lisa_tree.specs.Descriptions.{DescriptionTree};
ghost use Rattle.description_digest.specs.Digests.{digest_of};
ghost use Rattle.lisa_engine.specs.Memory.{Memory};
ghost use Rattle.lisa_engine.specs.declared.parts.Item.{Item};
ghost use Rattle.lisa_engine.specs.declared.parts.ArrayItem.{ArrayItem};
ghost use Rattle.machine_parts.specs.Parts.{arrays_of};
ghost use Rattle.vcd_trace.specs.VcdFaults.{Spells};
ghost use Rattle.hex_files.specs.declared.formats.MemoryFormat.{MemoryFormat};
ghost use Rattle.asm_source.specs.Plain.{PlainLine};
ghost use Rattle.lisa_object.specs.Objects.{PlainObject};
ghost use Rattle.generator_commands.specs.lisa_assembler.Objects.{IsObjectOf};
ghost use Rattle.verilog_text.specs.Faults.{VAccepts};
ghost use Rattle.engine_commands.specs.Images.{IsImageOf, IsMissing, IsNoImage};
ghost use Rattle.lisa_engine.specs.Machines.{Machine};
ghost use Rattle.engine_commands.specs.Schedules.{IsSchedule, IsNoSchedule};
ghost use Rattle.engine_commands.specs.Boards.{IsBoard, IsNoBoard};
ghost use Rattle.engine_commands.specs.Replays.{IsNoDump};
ghost use Rattle.engine_commands.specs.Making.{IsMade};
ghost use Rattle.verilog_command.specs.checked_descriptions.Checked.{Checked, IsChecked};
ghost use Rattle.verilog_command.specs.checked_descriptions.DescriptionImages.{IsImageFor, IsNoImageFor};
ghost use Rattle.module_commands.specs.Designs.{IsUnreadModule};
ghost use Rattle.generator_commands.specs.assembler_commands.Assembled.{IsSource, IsNoSource, IsUnassembled};
ghost use Rattle.generator_commands.specs.assembler_commands.DescriptionObjects.{AreObjectsFor, AreNoObjectsFor};
ghost use Rattle.generator_commands.specs.assembler_commands.Links.{IsLinked, IsUnlinked};
ghost use Rattle.memory_commands.specs.DescriptionMemories.{IsMemory, IsNoMemory};
ghost use Rattle.memory_commands.specs.Exports.{AreArrays};
ghost use Rattle.memory_commands.specs.Imports.{IsRead, IsUnread};
ghost use Rattle.verdict_promises.specs.Firsts.{IsAcceptedAs, IsRefusedFirst};
ghost use Rattle.command_promises.specs.Decided.{IsSingle, IsDecided};

use generator_commands::sources_have_one_answer;

/// What a command looks for is one thing at most, refused for one reason at most, and never both. Of modules, images, objects, sources,
/// schedules, boards, dumps and files of memories, of links, and of the memories that a machine has or that a name is of, there always is one or
/// the other.
pub fn steps_are_decided()
    ensures descriptions { (bytes : List ℕ) → IsSingle (IsAcceptedAs bytes) (IsRefusedFirst bytes) }
    ensures modules { (bytes : List ℕ) → IsDecided (VAccepts bytes) (IsUnreadModule bytes) }
    ensures images { (d : DescriptionTree) (bytes : Option (List ℕ)) → IsDecided (IsImageFor d bytes) (IsNoImageFor d bytes) }
    ensures module_images { (bytes : Option (List ℕ)) → IsDecided (IsImageOf bytes) (IsNoImage bytes) }
    ensures objects { (d : DescriptionTree) (files : List (List ℕ)) → IsDecided (AreObjectsFor (digest_of d) files) (AreNoObjectsFor (digest_of d) files) }
    ensures links { (d : DescriptionTree) (objects : List PlainObject) → IsDecided (IsLinked d objects) (IsUnlinked d objects) }
    ensures sources { (bytes : List ℕ) → IsDecided (IsSource bytes) (IsNoSource bytes) }
    ensures assemblies { (d : DescriptionTree) (c : Checked) (lines : List PlainLine) → IsChecked d c → IsSingle (IsObjectOf d lines) (IsUnassembled d lines) }
    ensures schedules { (pins : List Item) (bytes : List ℕ) → IsDecided (IsSchedule pins bytes) (IsNoSchedule pins bytes) }
    ensures boards { (items pins : List Item) (bytes : List ℕ) → IsDecided (IsBoard items pins bytes) (IsNoBoard items pins bytes) }
    ensures dumps { (bytes : List ℕ) → IsDecided (Spells bytes) (IsNoDump bytes) }
    ensures memory_names { (format : MemoryFormat) (d : DescriptionTree) (name : List ℕ) → IsDecided (IsMemory d name) (IsNoMemory format d name) }
    ensures memory_files { (format : MemoryFormat) (array : ArrayItem) (bytes : List ℕ) → IsDecided (IsRead format array bytes) (IsUnread format array bytes) }
    ensures exported { (d : DescriptionTree) (image : List Memory) → IsDecided (AreArrays d image) (IsMissing (arrays_of d) image) }
    ensures memories { (wanted : Machine) (memories : List Memory) → IsDecided (IsMade wanted memories) (IsMissing wanted.arrays memories) }
{
    sources_have_one_answer();
}
