// Values that go to bits of a cell.
ghost use Rattle.std.specs.Prelude.{◌≡◌, ◌<◌, ◌≤◌, ◌^◌, pos, true};
ghost use Rattle.lisa_words.specs.Words.{reduced};
ghost use Rattle.object_links.specs.LinkFaults.{in_range};

use lisa_object::FixKind;

fn power(exponent: u32) -> i128
    requires { exponent ≤ 64 }
    ensures { result ≡ pos (2 ^ exponent) }
{
    (1u128 << exponent) as i128
}

/// Whether bits of this width and kind take the value.
pub(crate) fn in_range(kind: FixKind, width: u32, value: i128) -> bool
    requires some { 1 ≤ width }
    requires most { width ≤ 64 }
    ensures { result ≡ in_range kind width value }
{
    match kind {
        FixKind::Unsigned => 0 <= value && value < power(width),
        FixKind::Signed => 0 - power(width - 1) <= value && value < power(width - 1),
        FixKind::Whole => 0 - power(width - 1) <= value && value < power(width),
    }
}

/// The bits of a value that is in range.
pub(crate) fn bits_of(kind: FixKind, width: u32, value: i128) -> u64
    requires some { 1 ≤ width }
    requires most { width ≤ 64 }
    requires fits { in_range kind width value ≡ true }
    ensures { result ≡ reduced value width }
{
    if value < 0 {
        (power(width) + value) as u64
    } else {
        value as u64
    }
}
