// Images, from their texts.
ghost use Rattle.std.specs.Prelude.{◌≡◌, ◌+◌, ◌<◌, ◌≤◌, ◌^◌, ◌==◌, ◌∷◌, ℕ, List, option_map, length, IfOk, IfErr, IfSome};
ghost use Rattle.std.specs.Bool.{OnTrue};
ghost use Rattle.std.specs.List.{slice_split};
ghost use Rattle.std.specs.Option.{option_copied};
ghost use Rattle.text_lines.specs.Cuts.{parts_behind};
ghost use Rattle.lisa_object.specs.ImageReading.{is_extent, extent_in, extent_of, head_of, head_at, cell_at, cells_of, memory_of, memories_in, image_of};
ghost use Rattle.lisa_object.specs.declared.parts.Stamped.{Stamped};
ghost use Rattle.lisa_object.specs.Rules.{IsStamped};
ghost use Rattle.lisa_object.specs.Texts.{image_text};
ghost use Rattle.lisa_object.specs.Seen.{HoldsSorted};
ghost use Rattle.lisa_object.specs.Gives.{Gives, IsThis, IsRefusal};

use crate::faults::{ImageFault, Stop};
use crate::parts::Stamped;
use crate::words::{
    enter, first_word, fits, hex_word, is_depth, is_done, is_end, is_last, is_visible, line_number,
    opening, small_word,
};
use lisa_engine::{Image, ImageMemory};
use lisa_words::Name;
use std::alloc::Global;
use std::collections::BTreeSet;
use text_lines::cut;

/// How wide and deep a memory is, and how many of its cells an image has.
#[derive(Clone, Copy, Debug)]
pub struct Extent {
    pub width: u32,
    pub depth: u32,
    pub count: u32,
}

fn is_extent(extent: Extent) -> bool
    ensures value { result ≡ is_extent extent }
    ensures narrow { OnTrue result (extent.width ≤ 64) }
{
    extent.width >= 1
        && extent.width <= 64
        && is_depth(extent.depth)
        && extent.count >= 1
        && extent.count <= extent.depth
}

fn extent_in(width: &[u8], depth: &[u8], count: &[u8]) -> Option<Extent>
    ensures value { result ≡ extent_in width.now depth.now count.now }
    ensures narrow { IfSome result (λ e. e.width ≤ 64) }
{
    let extent = Extent {
        width: small_word(width)?,
        depth: small_word(depth)?,
        count: small_word(count)?,
    };
    if is_extent(extent) {
        Some(extent)
    } else {
        None
    }
}

fn extent_of(left: Option<&[u8]>) -> Option<Extent>
    ensures value { result ≡ extent_of (parts_behind 32 (option_copied left.entry)) }
    ensures narrow { IfSome result (λ e. e.width ≤ 64) }
{
    let (width, left) = first_word(left)?;
    let (depth, left) = first_word(left)?;
    let (count, left) = first_word(left)?;
    if !is_done(left) {
        return None;
    }
    extent_in(width, depth, count)
}

// A memory's name and extent.
#[tactic(auto, unfolding(crate::specs::ImageReading::head_at))]
fn head_at(line: &[u8]) -> Option<(&[u8], Extent)>
    ensures value { option_map (λ x. (x.0.now, x.1)) result ≡ head_at line.now }
    ensures narrow { IfSome result (λ x. x.1.width ≤ 64) }
{
    let (keyword, left) = first_word(Some(line))?;
    let (name, left) = first_word(left)?;
    if keyword != b"memory".as_slice() || !is_visible(name) {
        return None;
    }
    Some((name, extent_of(left)?))
}

// The value of a cell's line.
#[tactic(auto, unfolding(crate::specs::ImageReading::cell_at))]
fn cell_at(width: u32, line: &[u8]) -> Option<u64>
    requires { width ≤ 64 }
    ensures { result ≡ cell_at width line.now }
{
    let value = hex_word(line)?;
    if fits(value, width) {
        Some(value)
    } else {
        None
    }
}

// So many cells, and what is left behind them.
fn cells(
    alloc: Global,
    width: u32,
    count: u32,
    left: Option<&[u8]>,
) -> Result<(Vec<u64>, Option<&[u8]>), Stop>
    requires { width ≤ 64 }
    ensures { Gives (λ x. (x.0.items, parts_behind 10 (option_copied x.1))) result (cells_of width count (parts_behind 10 (option_copied left.entry))) }
{
    let mut cells = Vec::new(alloc);
    let mut rest = left;
    'each: for _ in 0..count {
        let Some(text) = rest else {
            return Err(Stop::Misspelled { left: 0 });
        };
        let (line, behind) = cut(text, b'\n');
        let Some(cell) = cell_at(width, line) else {
            return Err(Stop::Misspelled { left: text.len() });
        };
        cells.push(cell)?;
        rest = behind;
    }
    Ok((cells, rest))
}

// The memory of a line and of those behind it, where so many cells and the names that were seen stand before it, and
// how many cells there are with it.
#[tactic(auto, unfolding(crate::specs::ImageReading::memory_of))]
fn memory<'a>(
    alloc: Global,
    seen: &mut BTreeSet<Name>,
    before: u32,
    place: usize,
    line: &[u8],
    left: Option<&'a [u8]>,
) -> Result<(ImageMemory, u32, Option<&'a [u8]>), Stop>
    requires { before ≤ 4194304 }
    ensures exact { (names : List (List ℕ)) → HoldsSorted seen.old names → Gives (λ x. (x.0, parts_behind 10 (option_copied x.2))) result (memory_of before names line.now (parts_behind 10 (option_copied left.entry))) }
    ensures seen { (names : List (List ℕ)) → HoldsSorted seen.old names → IfOk result (λ x. HoldsSorted seen.new (x.0.name ∷ names)) }
    ensures total { IfOk result (λ x. (x.1 ≡ before + length x.0.cells) × (x.1 ≤ 4194304)) }
{
    let Some((name, extent)) = head_at(line) else {
        return Err(Stop::Misspelled { left: place });
    };
    if extent.count > 4_194_304 - before {
        return Err(Stop::Misspelled { left: place });
    }
    if !enter(alloc, seen, name)? {
        return Err(Stop::Misspelled { left: place });
    }
    let name = Name::from_bytes(alloc, name)?;
    let (cells, left) = cells(alloc, extent.width, extent.count, left)?;
    let memory = ImageMemory {
        name,
        width: extent.width,
        depth: extent.depth,
        cells,
    };
    Ok((memory, before + extent.count, left))
}

// The memories up to the line `end`.
fn memories(alloc: Global, left: Option<&[u8]>) -> Result<Vec<ImageMemory>, Stop>
    ensures { Gives (λ v. v.items) result (memories_in (parts_behind 10 (option_copied left.entry))) }
{
    let mut all = Vec::new(alloc);
    let mut seen = BTreeSet::new(alloc);
    let mut before = 0;
    let mut rest = left;
    'each: loop {
        let Some(text) = rest else {
            return Err(Stop::Misspelled { left: 0 });
        };
        let (line, behind) = cut(text, b'\n');
        if is_end(line) {
            return if is_last(behind) {
                Ok(all)
            } else {
                Err(Stop::Misspelled { left: text.len() })
            };
        }
        let (memory, total, after) = memory(alloc, &mut seen, before, text.len(), line, behind)?;
        all.push(memory)?;
        before = total;
        rest = after;
    }
}

fn image(alloc: Global, bytes: &[u8]) -> Result<Stamped, Stop>
    ensures { Gives (λ s. s) result (image_of (slice_split (λ b. b == 10) bytes.now)) }
{
    let (line, left) = cut(bytes, b'\n');
    let Some(digest) = opening(b"image", line) else {
        return Err(Stop::Misspelled { left: bytes.len() });
    };
    let memories = memories(alloc, left)?;
    Ok(Stamped {
        digest,
        image: Image { memories },
    })
}

/// The image that the bytes spell.
pub fn read_image(alloc: Global, bytes: &[u8]) -> Result<Stamped, ImageFault>
    requires { length bytes.now < 2 ^ 32 }
    // The bytes are the one spelling of what is answered.
    ensures found { IfOk result (λ s. IsStamped s × (bytes.now ≡ image_text s)) }
    // What has this spelling is answered, unless memory runs out.
    ensures only { (s : Stamped) → IsStamped s → bytes.now ≡ image_text s → IsThis s result }
    // No other refusal comes, and its line is one of the text.
    ensures fault { IfErr result (IsRefusal bytes.now) }
{
    match image(alloc, bytes) {
        Ok(image) => Ok(image),
        Err(Stop::Misspelled { left }) => Err(ImageFault::NotAnImage {
            line: line_number(bytes, left),
        }),
        Err(Stop::NoMemory) => Err(ImageFault::NoMemory),
    }
}
