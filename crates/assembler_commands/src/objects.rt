//! Objects from bytes.
ghost use Rattle.std.specs.Prelude.{◌≡◌, ◌<◌, ◌^◌, length, All, IfOk, IfErr};
ghost use Rattle.lisa_object.specs.Objects.{object_tree};
ghost use Rattle.lisa_object.specs.ObjectRules.{IsObject};
ghost use Rattle.lisa_outcomes.specs.declared.status.End.TheVariants as ends;
ghost use Rattle.lisa_outcomes.specs.declared.status.Refusal.{Refusal as AnyRefusal};
ghost use Rattle.lisa_outcomes.specs.Refusals.{IsRefusal};
ghost use Rattle.lisa_outcomes.specs.Stages.{Finds};
ghost use Rattle.assembler_commands.specs.DescriptionObjects.{SpellsObject, AreObjects, IsNoObject, IsUnspelled, HaveDigest, IsElsewhere, AreObjectsFor, AreNoObjectsFor};
ghost use Rattle.assembler_commands.specs.ObjectViews.{texts_of, trees_of};
ghost use Rattle.assembler_commands.specs.Unlinked.{unread_object};

use lisa_object::{Object, ObjectFault, objects_are_unique, read_object};
use lisa_outcomes::{End, Refusal};
use std::alloc::Global;

// The end of a command whose object wasn't read.
fn unread(fault: ObjectFault) -> End
    ensures { result ≡ unread_object fault }
{
    match fault {
        ObjectFault::NoMemory => End::NoMemory,
        other => End::Refused(Refusal::Object(other)),
    }
}

// The object that the bytes of the file of this number spell.
fn object_of(alloc: Global, bytes: &[u8], number: u32) -> Result<Object, End>
    requires { length bytes.now < 2 ^ 32 }
    ensures { Finds object_tree (SpellsObject bytes.now) (IsNoObject number bytes.now) result }
{
    objects_are_unique();
    match read_object(alloc, bytes, number) {
        Ok(object) => Ok(object),
        Err(fault) => Err(unread(fault)),
    }
}

// The objects that files spell, in their order.
fn objects_of(alloc: Global, files: &[Vec<u8>]) -> Result<Vec<Object>, End>
    requires few { length files.now < 2 ^ 32 }
    requires short { All (λ bytes. length bytes.items < 2 ^ 32) files.now }
    ensures { Finds (λ all. trees_of all.items) (AreObjects (texts_of files.now)) (IsUnspelled 1 (texts_of files.now)) result }
{
    objects_are_unique();
    let mut all = Vec::new(alloc);
    for place in 0..files.len() {
        let object = match object_of(alloc, &files[place], place as u32 + 1) {
            Ok(object) => object,
            Err(end) => return Err(end),
        };
        match all.push(object) {
            Ok(()) => {}
            Err(_) => return Err(End::NoMemory),
        }
    }
    Ok(all)
}

// Whether each object has this digest; else the refusal of the first that has another.
fn check_digests(objects: &[Object], digest: [u8; 32]) -> Result<(), End>
    requires few { length objects.now < 2 ^ 32 }
    ensures same { IfOk result (λ _. HaveDigest digest (trees_of objects.now)) }
    ensures other { IfErr result (λ end. (refusal : AnyRefusal) × (end ≡ ends.Refused refusal) × IsRefusal refusal × IsElsewhere digest 1 (trees_of objects.now) refusal) }
{
    for place in 0..objects.len() {
        let object = &objects[place];
        let kept = object.digest;
        if kept != digest {
            return Err(End::Refused(Refusal::Object(ObjectFault::OtherDescription {
                object: place as u32 + 1,
                kept,
                expected: digest,
            })));
        }
    }
    Ok(())
}

// The objects, where each has this digest.
fn with_digest(objects: Vec<Object>, digest: [u8; 32]) -> Result<Vec<Object>, End>
    requires few { length objects.items < 2 ^ 32 }
    ensures same { IfOk result (λ all. (all.items ≡ objects.items) × HaveDigest digest (trees_of objects.items)) }
    ensures other { IfErr result (λ end. (refusal : AnyRefusal) × (end ≡ ends.Refused refusal) × IsRefusal refusal × IsElsewhere digest 1 (trees_of objects.items) refusal) }
{
    match check_digests(&objects, digest) {
        Ok(()) => Ok(objects),
        Err(end) => Err(end),
    }
}

/// The objects that files spell, in their order, each with this digest.
pub(crate) fn objects_for(
    alloc: Global,
    digest: [u8; 32],
    files: &[Vec<u8>],
) -> Result<Vec<Object>, End>
    requires few { length files.now < 2 ^ 32 }
    requires short { All (λ bytes. length bytes.items < 2 ^ 32) files.now }
    ensures finds { Finds (λ all. trees_of all.items) (AreObjectsFor digest (texts_of files.now)) (AreNoObjectsFor digest (texts_of files.now)) result }
    ensures rules { IfOk result (λ all. All (λ o. IsObject (object_tree o)) all.items) }
    ensures few { IfOk result (λ all. length all.items < 2 ^ 32) }
{
    objects_are_unique();
    match objects_of(alloc, files) {
        Ok(objects) => with_digest(objects, digest),
        Err(end) => Err(end),
    }
}
