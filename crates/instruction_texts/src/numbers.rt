// Numbers at the ends of runs.
ghost use Rattle.std.specs.Prelude.{◌≡◌, ◌≤◌, SomeIff, option_map, true};
ghost use Rattle.instruction_texts.specs.Runs.{digit, base_of, all_digits, is_plain, accepts, ends, value, strip};
ghost use Rattle.instruction_texts.specs.declared.shapes.Ending.TheVariants.{Plain, Number};
ghost use Rattle.instruction_texts.specs.Shapes.{lead};
ghost use Rattle.instruction_texts.specs.Leads.{lead_of, IsUpTo, number_behind};

use crate::shapes::Ending;

fn digit_value(byte: u8) -> u64
    ensures { result ≡ digit byte }
{
    match byte {
        b'0'..=b'9' => u64::from(byte - b'0'),
        b'a'..=b'f' => u64::from(byte - b'a') + 10,
        _ => 99,
    }
}

// The number that digits of this base write, where it is at most `high`.
fn value_up_to(base: u64, high: u64, digits: &[u8]) -> Option<u64>
    requires { (2 ≤ base) × (base ≤ 16) }
    ensures { SomeIff result (IsUpTo base high digits.now) (value base digits.now) }
{
    let mut sum: u64 = 0;
    'digits: for i in 0..digits.len() {
        let digit = digit_value(digits[i]);
        if digit >= base {
            return None;
        }
        let Some(product) = sum.checked_mul(base) else {
            return None;
        };
        let Some(next) = product.checked_add(digit) else {
            return None;
        };
        if next > high {
            return None;
        }
        sum = next;
    }
    if sum > high { None } else { Some(sum) }
}

fn is_plain_number(digits: &[u8]) -> bool
    ensures { result ≡ is_plain digits.now }
{
    match digits {
        [] => false,
        [_] => true,
        [first, _, ..] => digit_value(*first) != 0,
    }
}

// The number of this kind that these digits write.
fn number(hex: bool, positive: bool, high: u64, digits: &[u8]) -> Option<u64>
    ensures { SomeIff result (ends (Number hex positive high) digits.now ≡ true) (value (base_of hex) digits.now) }
{
    if !is_plain_number(digits) {
        return None;
    }
    let base = if hex { 16 } else { 10 };
    match value_up_to(base, high, digits) {
        Some(value) if !positive || value > 0 => Some(value),
        _ => None,
    }
}

fn strip<'a>(prefix: &[u8], text: &'a [u8]) -> Option<&'a [u8]>
    ensures { option_map (λ rest. rest.now) result ≡ strip prefix.now text.now }
{
    let Some(rest) = text.strip_prefix(prefix) else {
        return None;
    };
    Some(rest)
}

// What stands behind a prefix, and behind `0x` where the number is hexadecimal.
fn behind<'a>(hex: bool, prefix: &[u8], text: &'a [u8]) -> Option<&'a [u8]>
    ensures { option_map (λ rest. rest.now) result ≡ strip (lead hex prefix.now) text.now }
{
    let Some(rest) = strip(prefix, text) else {
        return None;
    };
    if hex { strip(b"0x", rest) } else { Some(rest) }
}

// The number of this kind that stands behind a prefix.
pub fn number_behind(
    hex: bool,
    positive: bool,
    high: u64,
    prefix: &[u8],
    text: &[u8],
) -> Option<u64>
    ensures { result ≡ number_behind hex positive high prefix.now text.now }
{
    match behind(hex, prefix, text) {
        Some(digits) => number(hex, positive, high, digits),
        None => None,
    }
}

fn is_all(prefix: &[u8], text: &[u8]) -> bool
    ensures { result ≡ accepts prefix.now Plain text.now }
{
    match strip(prefix, text) {
        Some(rest) => rest.is_empty(),
        None => false,
    }
}

// Whether a run of this prefix and ending can be this text.
pub fn accepts_text(prefix: &[u8], ending: Ending, text: &[u8]) -> bool
    ensures { result ≡ accepts (lead_of ending prefix.now) ending text.now }
{
    match ending {
        Ending::Plain => is_all(prefix, text),
        Ending::Number {
            hex,
            positive,
            high,
        } => number_behind(hex, positive, high, prefix, text).is_some(),
    }
}
