// Numbers, put as their digits.
ghost use Rattle.std.specs.Prelude.{◌≡◌, ◌<◌, ◌≤◌, length, take, decimal as decimal_digits};
ghost use Rattle.lisa_io.specs.Contents.{Puts};
ghost use Rattle.vcd_trace.specs.VcdText.{binary as binary_digits};

use lisa_io::{Failed, Sink, put_all};
use lisa_words::decimal;

pub(crate) fn put_decimal<O: Sink>(out: &mut O, value: u64) -> Result<(), Failed>
    ensures { Puts (O.written out.old) (O.written out.new) (O.faults out.old) (O.faults out.new) result (decimal_digits value) }
{
    let mut digits = [0; 20];
    let count = decimal(value, &mut digits);
    put_all(out, &digits[..count])
}

// Writes the binary digits from the front, and answers how many.
fn binary(value: u64, into: &mut [u8; 64]) -> usize
    ensures digits { take result into.new ≡ binary_digits value }
    ensures count { result ≡ length (binary_digits value) }
    ensures room { result ≤ 64 }
{
    if value < 2 {
        into[0] = 48 + value as u8;
        return 1;
    }
    let count = binary(value / 2, into);
    into[count] = 48 + (value % 2) as u8;
    count + 1
}

pub(crate) fn put_binary<O: Sink>(out: &mut O, value: u64) -> Result<(), Failed>
    ensures { Puts (O.written out.old) (O.written out.new) (O.faults out.old) (O.faults out.new) result (binary_digits value) }
{
    let mut digits = [0; 64];
    let count = binary(value, &mut digits);
    put_all(out, &digits[..count])
}
