// The fields of boundaries, and what they got in an edge.
ghost use Rattle.std.specs.Prelude.{◌≡◌, ◌≢◌, ◌<◌, ◌+◌, ◌^◌, ◌||◌, ℕ, None, IfOk, reverse, suc};
ghost use Rattle.pipeline_time.specs.Edges.{is_held, is_flushed};
ghost use Rattle.lisa_meaning.specs.Moments.{field_at, field_before, out_set};
ghost use Rattle.moment_stores.specs.Rows.{rows, place_set, table, IsTable};
ghost use Rattle.moment_stores.specs.Boundaries.{closed, closed_by};

use crate::levels::Levels;
use crate::row_values::{fill_in, set_in, value_in};
use std::alloc::{AllocError, Global};

/// The fields of each boundary, and what was written to each in an edge.
#[derive(Drop)]
pub struct Boundaries {
    count: usize,
    width: usize,
    fields: Vec<Vec<u64>>,
    outs: Vec<Vec<Option<u64>>>,
    ghost of_fields: { IsTable count width (rows fields.items) },
    ghost of_outs: { IsTable count width (rows outs.items) },
}

// Rows of zeros.
fn make_fields(alloc: Global, count: usize, width: usize) -> Result<Vec<Vec<u64>>, AllocError>
    ensures { IfOk result (λ all. rows all.items ≡ table count width (λ s f. 0)) }
{
    let mut all = Vec::with_capacity(alloc, count)?;
    'each: for i in 0..count {
        all.push(vec![in alloc; 0; width]?)?;
    }
    Ok(all)
}

fn make_outs(alloc: Global, count: usize, width: usize) -> Result<Vec<Vec<Option<u64>>>, AllocError>
    ensures { IfOk result (λ all. rows all.items ≡ table count width (λ s f. None)) }
{
    let mut all = Vec::with_capacity(alloc, count)?;
    'each: for i in 0..count {
        all.push(vec![in alloc; None; width]?)?;
    }
    Ok(all)
}

// A field of the boundary before one; 0 where there is none.
fn field_before(fields: &[Vec<u64>], boundary: usize, field: usize) -> u64
    ensures { result ≡ field_before (rows fields.now) boundary field }
{
    if boundary == 0 {
        0
    } else {
        value_in(fields, boundary - 1, field, 0)
    }
}

// What a boundary is, by the levels of the stages before and behind it.
#[derive(Clone, Copy)]
struct Closing {
    // the stage behind the boundary was held
    stays: bool,
    // the stage before it was held or flushed
    empties: bool,
}

// A field at the end of an edge, where those before it are as the edge began.
fn closed(
    closing: Closing,
    fields: &[Vec<u64>],
    outs: &[Vec<Option<u64>>],
    boundary: usize,
    field: usize,
) -> u64
    ensures { result ≡ closed_by closing.stays closing.empties (rows fields.now) (rows outs.now) boundary field }
{
    if closing.stays {
        value_in(fields, boundary, field, 0)
    } else if closing.empties {
        0
    } else {
        value_in(outs, boundary, field, None).unwrap_or(field_before(fields, boundary, field))
    }
}

// Ends the edge for the fields of a boundary, where those before it are as the edge began.
fn close_row(
    closing: Closing,
    fields: &mut [Vec<u64>],
    outs: &[Vec<Option<u64>>],
    count: usize,
    width: usize,
    boundary: usize,
)
    requires table { IsTable count width (rows fields.old) }
    requires boundary { boundary < count }
    ensures table { IsTable count width (rows fields.new) }
    ensures here { (f : ℕ) → f < width → field_at (rows fields.new) boundary f ≡ closed_by closing.stays closing.empties (rows fields.old) (rows outs.now) boundary f }
    ensures others { (s f : ℕ) → s ≢ boundary → field_at (rows fields.new) s f ≡ field_at (rows fields.old) s f }
{
    'each: for field in 0..width {
        let bits = closed(closing, fields, outs, boundary, field);
        set_in(fields, boundary, field, bits);
    }
}

// What becomes of a boundary.
fn closing_of(stalled: &Levels, flushed: &Levels, boundary: usize) -> Closing
    requires { boundary + 2 < 2 ^ 64 }
    ensures stays { result.stays ≡ is_held (reverse stalled.now.noted.items) (suc (suc boundary)) }
    ensures empties { result.empties ≡ (is_held (reverse stalled.now.noted.items) (suc boundary) || is_flushed (reverse flushed.now.noted.items) (suc boundary)) }
{
    let stays = stalled.is_held(boundary + 2);
    let held = stalled.is_held(boundary + 1);
    let flushed = flushed.is_flushed(boundary + 1);
    Closing {
        stays,
        empties: held || flushed,
    }
}

// Ends the edge, from the last boundary down, so that those before it are as the edge began.
fn close_rows(
    fields: &mut [Vec<u64>],
    outs: &[Vec<Option<u64>>],
    count: usize,
    width: usize,
    stalled: &Levels,
    flushed: &Levels,
)
    requires { IsTable count width (rows fields.old) }
    ensures { rows fields.new ≡ table count width (closed (reverse stalled.now.noted.items) (reverse flushed.now.noted.items) (rows fields.old) (rows outs.now)) }
{
    let mut left = fields.len();
    'each: while left > 0 {
        left -= 1;
        let closing = closing_of(stalled, flushed, left);
        close_row(closing, fields, outs, count, width, left);
    }
}

impl Boundaries {
    /// So many boundaries of so many fields, all 0, and nothing was written.
    pub fn make(alloc: Global, count: usize, width: usize) -> Result<Boundaries, AllocError>
        ensures count { IfOk result (λ all. all.count ≡ count) }
        ensures width { IfOk result (λ all. all.width ≡ width) }
        ensures fields { IfOk result (λ all. rows all.fields.items ≡ table count width (λ s f. 0)) }
        ensures outs { IfOk result (λ all. rows all.outs.items ≡ table count width (λ s f. None)) }
    {
        let fields = make_fields(alloc, count, width)?;
        let outs = make_outs(alloc, count, width)?;
        Ok(Boundaries {
            count,
            width,
            fields,
            outs,
        })
    }

    /// A field as the edge began; 0 where there is none.
    pub fn field(&self, boundary: usize, field: usize) -> u64
        ensures { result ≡ field_at (rows self.now.fields.items) boundary field }
    {
        value_in(&self.fields, boundary, field, 0)
    }

    /// Writes a field, for the end of the edge.
    pub fn put(&mut self, boundary: usize, field: usize, bits: u64)
        ensures outs { rows self.new.outs.items ≡ out_set (rows self.old.outs.items) boundary field bits }
        ensures fields { self.new.fields.items ≡ self.old.fields.items }
        ensures count { self.new.count ≡ self.old.count }
        ensures width { self.new.width ≡ self.old.width }
    {
        set_in(&mut self.outs, boundary, field, Some(bits));
    }

    /// Gives a field bits at once.
    pub fn set(&mut self, boundary: usize, field: usize, bits: u64)
        ensures fields { rows self.new.fields.items ≡ place_set (rows self.old.fields.items) boundary field bits }
        ensures outs { self.new.outs.items ≡ self.old.outs.items }
        ensures count { self.new.count ≡ self.old.count }
        ensures width { self.new.width ≡ self.old.width }
    {
        set_in(&mut self.fields, boundary, field, bits);
    }

    /// Takes back what was written.
    pub fn begin(&mut self)
        ensures outs { rows self.new.outs.items ≡ table self.old.count self.old.width (λ s f. None) }
        ensures fields { self.new.fields.items ≡ self.old.fields.items }
        ensures count { self.new.count ≡ self.old.count }
        ensures width { self.new.width ≡ self.old.width }
    {
        fill_in(&mut self.outs, self.count, self.width, None);
    }

    /// Makes all fields 0.
    pub fn empty(&mut self)
        ensures fields { rows self.new.fields.items ≡ table self.old.count self.old.width (λ s f. 0) }
        ensures outs { self.new.outs.items ≡ self.old.outs.items }
        ensures count { self.new.count ≡ self.old.count }
        ensures width { self.new.width ≡ self.old.width }
    {
        fill_in(&mut self.fields, self.count, self.width, 0);
    }

    /// Ends the edge, by the levels that were stalled and flushed.
    pub fn close(&mut self, stalled: &Levels, flushed: &Levels)
        ensures fields { rows self.new.fields.items ≡ table self.old.count self.old.width (closed (reverse stalled.now.noted.items) (reverse flushed.now.noted.items) (rows self.old.fields.items) (rows self.old.outs.items)) }
        ensures outs { self.new.outs.items ≡ self.old.outs.items }
        ensures count { self.new.count ≡ self.old.count }
        ensures width { self.new.width ≡ self.old.width }
    {
        close_rows(
            &mut self.fields,
            &self.outs,
            self.count,
            self.width,
            stalled,
            flushed,
        );
    }
}
