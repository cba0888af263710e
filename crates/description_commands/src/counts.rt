//! How much there is of a description, in lines.
ghost use Rattle.std.specs.Prelude.{◌≡◌, ◌++◌, codes, decimal as decimal_digits, false};
ghost use Rattle.lisa_io.specs.Contents.{Puts};
ghost use Rattle.description_commands.specs.Checks.{counts_of, count_line, counts_text};
ghost use Rattle.checked_descriptions.specs.ToolViews.{checked_of, AreTools};

use checked_descriptions::Tools;
use lisa_io::{Failed, Sink, put_all};
use lisa_words::decimal;

/// How many operations a description has, and how many forms, occurrences and items it unfolds to.
#[derive(Clone, Copy, Debug)]
pub struct Counts {
    pub operations: u64,
    pub forms: u64,
    pub occurrences: u64,
    pub items: u64,
}

impl Counts {
    /// Counts the operations of a description that is checked, and what it was unfolded to.
    pub fn of(tools: &Tools) -> Counts
        requires { AreTools tools.now }
        ensures { result ≡ counts_of (checked_of tools.now) }
    {
        Counts {
            operations: tools.machine.description().operations.len() as u64,
            forms: tools.forms.count() as u64,
            occurrences: tools.forms.occurrences().len() as u64,
            items: tools.forms.items().len() as u64,
        }
    }
}

/// Writes a number in decimal digits.
pub(crate) fn put_number<O: Sink>(out: &mut O, value: u64) -> Result<(), Failed>
    ensures { Puts (O.written out.old) (O.written out.new) (O.faults out.old) (O.faults out.new) result (decimal_digits value) }
{
    let mut digits = [0; 20];
    let count = decimal(value, &mut digits);
    put_all(out, &digits[..count])
}

fn put_count<O: Sink>(out: &mut O, label: &[u8], count: u64) -> Result<(), Failed>
    ensures { Puts (O.written out.old) (O.written out.new) (O.faults out.old) (O.faults out.new) result (count_line label.now count) }
{
    put_all(out, label)?;
    put_number(out, count)?;
    put_all(out, b"\n")
}

/// Writes the four lines.
pub fn put_counts<O: Sink>(out: &mut O, counts: Counts) -> Result<(), Failed>
    ensures { Puts (O.written out.old) (O.written out.new) (O.faults out.old) (O.faults out.new) result (counts_text counts) }
{
    put_count(out, b"operations ", counts.operations)?;
    put_count(out, b"forms ", counts.forms)?;
    put_count(out, b"occurrences ", counts.occurrences)?;
    put_count(out, b"items ", counts.items)
}
