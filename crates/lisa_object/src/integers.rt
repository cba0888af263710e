// Integers of up to 21 digits.
ghost use Rattle.std.specs.Prelude.{◌≡◌, ◌<◌, ◌^◌, ℕ, Some, IfSome, decimal};
ghost use Rattle.lisa_object.specs.ObjectReading.{wide_of, negative, integer_of};

// The number whose decimal digits the text is.
fn wide_digits(text: &[u8]) -> Option<u128>
    ensures read { IfSome result (λ n. text.now ≡ decimal n) }
    ensures small { IfSome result (λ n. n < 10 ^ 21) }
    ensures found { (n : ℕ) → n < 10 ^ 21 → text.now ≡ decimal n → result ≡ Some n }
{
    let [front @ .., last] = text else {
        return None;
    };
    if *last < b'0' || *last > b'9' {
        return None;
    }
    let digit = (*last - b'0') as u128;
    if front.is_empty() {
        return Some(digit);
    }
    let value = wide_digits(front)?;
    if value == 0 || value >= 100_000_000_000_000_000_000 {
        return None;
    }
    Some(10 * value + digit)
}

fn wide_word(word: &[u8]) -> Option<u128>
    ensures value { result ≡ wide_of word.now }
    ensures small { IfSome result (λ n. n < 10 ^ 21) }
{
    if word.len() > 21 {
        return None;
    }
    wide_digits(word)
}

fn negative(value: u128) -> Option<i128>
    requires { value < 10 ^ 21 }
    ensures { result ≡ negative value }
{
    if value == 0 {
        return None;
    }
    Some(0 - value as i128)
}

// The integer that a word writes.
#[tactic(auto, unfolding(crate::specs::ObjectReading::integer_of))]
pub fn integer_word(word: &[u8]) -> Option<i128>
    ensures { result ≡ integer_of word.now }
{
    match word {
        [] => None,
        [b'-', digits @ ..] => negative(wide_word(digits)?),
        _ => Some(wide_word(word)? as i128),
    }
}
