// Images: the contents that memories begin with.
ghost use Rattle.std.specs.Prelude.{◌≡◌, ◌≢◌, ◌≤◌, ◌+◌, ◌-◌, ◌++◌, List, [], ◌<◌, ℕ, Err, Some, None, IfOk, OnOk, AllPairs, length, map, replicate, not};
ghost use Rattle.std.specs.List.{list_any, find};
ghost use Rattle.std.specs.Option.{option_copied, option_map_or};
ghost use Rattle.lisa_engine.specs.Memory.{Memory};
ghost use Rattle.lisa_engine.specs.Shape.{AreCells};
ghost use Rattle.lisa_engine.specs.Images.{IsImage, has_name, is_array, missing_memory, loaded as loaded_cells, first_cells as cells_at_first};

use crate::parts::ArrayItem;
use lisa_words::{Name, NoMemory};
use std::alloc::{AllocError, AllocFailed, Global};
use std::marker::Model;

/// Why no engine was made.
#[derive(Debug, Drop)]
pub enum MakeFault {
    /// No array has this name, width and depth.
    NoSuchMemory { name: Name },
    /// Memory was wanted and not given.
    NoMemory,
}

impl From<AllocError> for MakeFault {
    ghost use Rattle.lisa_engine.specs.declared.image.MakeFault.TheVariants.{NoMemory};

    ghost from_gives = { λ _ fault. fault ≡ NoMemory };

    fn from(_error: AllocError) -> MakeFault {
        MakeFault::NoMemory
    }
}

impl<T: Drop> From<AllocFailed<T>> for MakeFault {
    ghost use Rattle.lisa_engine.specs.declared.image.MakeFault.TheVariants.{NoMemory};

    ghost from_gives = { λ _ fault. fault ≡ NoMemory };

    fn from(_error: AllocFailed<T>) -> MakeFault {
        MakeFault::NoMemory
    }
}

/// A memory of an image. Contracts see the record of its name, width and depth, and the list of its cells.
#[derive(Debug, Drop)]
pub struct ImageMemory {
    pub name: Name,
    pub width: u32,
    pub depth: u32,
    pub cells: Vec<u64>,
}

impl Model for ImageMemory {
    ghost Value = { Memory };

    ghost view = { λ m. record { name = m.name; width = m.width; depth = m.depth; cells = m.cells.items } };
}

/// The first contents of memories. Contracts see the list of its memories.
#[derive(Debug, Drop)]
pub struct Image {
    pub memories: Vec<ImageMemory>,
}

impl Model for Image {
    ghost Value = { List Memory };

    ghost view = { λ i. i.memories.items };
}

// The memory is this array.
fn fits_array(memory: &ImageMemory, array: &ArrayItem) -> bool
    ensures { result ≡ is_array memory.now array.now }
{
    memory.name == array.name && memory.width == array.width && memory.depth == array.depth
}

// The memory is one of the arrays.
fn has_array(memory: &ImageMemory, arrays: &[ArrayItem]) -> bool
    ensures { result ≡ list_any (is_array memory.now) arrays.now }
{
    arrays.iter().any(|array| fits_array(memory, array))
}

// The first memory that is none of the arrays.
fn find_missing<'a>(image: &'a Image, arrays: &[ArrayItem]) -> Option<&'a ImageMemory>
    ensures { option_copied result ≡ find (λ memory. not (list_any (is_array memory) arrays.now)) image.now }
{
    image
        .memories
        .iter()
        .find(|memory| !has_array(memory, arrays))
}

// The memory of this name.
fn find_named<'a>(image: &'a Image, name: &Name) -> Option<&'a ImageMemory>
    ensures { option_copied result ≡ find (has_name name.now) image.now }
{
    image.memories.iter().find(|memory| memory.name == *name)
}

// What the array holds first.
fn load(alloc: Global, array: &ArrayItem, image: &Image) -> Result<Vec<u64>, AllocError>
    requires { length (option_map_or (λ memory. memory.cells) (find (has_name array.now.name) image.now) []) ≤ array.now.depth }
    ensures { IfOk result (λ v. v.items ≡ loaded_cells image.now array.now) }
{
    let cells = match find_named(image, &array.name) {
        Some(memory) => memory.cells.as_slice(),
        None => &[],
    };
    fill_up(alloc, cells, array.depth as usize)
}

// These cells, and 0 from there on.
fn fill_up(alloc: Global, cells: &[u64], depth: usize) -> Result<Vec<u64>, AllocError>
    requires { length cells.now ≤ depth }
    ensures { IfOk result (λ v. v.items ≡ cells.now ++ replicate (depth - length cells.now) 0) }
{
    let mut filled = Vec::with_capacity(alloc, depth)?;
    filled.extend_from_slice(cells)?;
    filled.resize(depth, 0)?;
    Ok(filled)
}

/// The cells that each array holds first: those that the image has for it, and 0 from there on.
pub fn first_cells(
    alloc: Global,
    arrays: &[ArrayItem],
    image: &Image,
) -> Result<Vec<Vec<u64>>, MakeFault>
    requires image { IsImage image.now }
    requires arrays { AllPairs (λ a b. a.name ≢ b.name) arrays.now }
    ensures cells { IfOk result (λ v. map (λ c. c.items) v.items ≡ cells_at_first arrays.now image.now) }
    ensures shape { OnOk result (AreCells arrays.now (cells_at_first arrays.now image.now)) }
    ensures found { OnOk result (missing_memory arrays.now image.now ≡ None) }
    ensures missing { (name : List ℕ) → result ≡ Err (MakeFault.NoSuchMemory name) → missing_memory arrays.now image.now ≡ Some name }
{
    if let Some(memory) = find_missing(image, arrays) {
        let name = memory.name.clone()?;
        return Err(MakeFault::NoSuchMemory { name });
    }
    let mut all = Vec::with_capacity(alloc, arrays.len())?;
    for array in arrays {
        all.push(load(alloc, array, image)?)?;
    }
    Ok(all)
}
