//! Single words: names of files, and numbers.
ghost use Rattle.std.specs.Prelude.{◌≡◌, ◌≢◌, ◌≤◌, ◌↔◌, ◌∷◌, [], List, ℕ, Option, Some, IsTrue, IfSome, codes, map, string_bytes, decimal};
ghost use Rattle.std.specs.Option.{option_map};
ghost use Rattle.command_words.specs.Requests.{IsFileName, IsAnyName, file_word};

use lisa_words::canonical_decimal;

/// A word that names a file.
pub fn file_name(word: &str) -> Option<&str>
    ensures found { IfSome result (λ name. (name.now ≡ word.now) × IsFileName name.now) }
    ensures only { IsFileName word.now → option_map (λ name. name.now) result ≡ Some word.now }
{
    if word.is_empty() {
        return None;
    }
    if word == "-" {
        return None;
    }
    Some(word)
}

// The word of a file that is left out.
fn is_absent(word: &str) -> bool
    ensures { IsTrue result ↔ (word.now ≡ codes "-") }
{
    word == "-"
}

/// A word that names a file, or a dash where one is left out.
pub fn any_file(word: &str) -> Option<Option<&str>>
    ensures found { IfSome result (λ name. (word.now ≡ file_word (option_map (λ n. n.now) name)) × IsAnyName (option_map (λ n. n.now) name)) }
    ensures only { (name : Option (List ℕ)) → word.now ≡ file_word name → IsAnyName name → option_map (option_map (λ n. n.now)) result ≡ Some name }
{
    if is_absent(word) {
        return Some(None);
    }
    let name = file_name(word)?;
    Some(Some(name))
}

/// The names of two files.
pub fn two_files(operands: &[String]) -> Option<(&str, &str)>
    ensures found { IfSome result (λ n. (map string_bytes operands.now ≡ n.0.now ∷ n.1.now ∷ []) × IsFileName n.0.now × IsFileName n.1.now) }
    ensures only { (x y : List ℕ) → map string_bytes operands.now ≡ x ∷ y ∷ [] → IsFileName x → IsFileName y → option_map {U = List ℕ × List ℕ} (λ n. (n.0.now, n.1.now)) result ≡ Some (x, y) }
{
    let [first, second] = operands else {
        return None;
    };
    let first = file_name(first.as_str())?;
    let second = file_name(second.as_str())?;
    Some((first, second))
}

/// A word that isn't empty.
pub fn some_word(word: &str) -> Option<&str>
    ensures found { IfSome result (λ name. (name.now ≡ word.now) × (name.now ≢ [])) }
    ensures only { word.now ≢ [] → option_map (λ name. name.now) result ≡ Some word.now }
{
    if word.is_empty() {
        return None;
    }
    Some(word)
}

/// A number in decimal digits without leading zeros, up to a limit.
pub fn count_up_to(word: &str, limit: u32) -> Option<u32>
    ensures found { IfSome result (λ n. (word.now ≡ decimal n) × (n ≤ limit)) }
    ensures only { (n : _) → word.now ≡ decimal n → n ≤ limit → result ≡ Some n }
{
    let count = canonical_decimal(word.as_bytes())?;
    if count > limit as u64 {
        return None;
    }
    Some(count as u32)
}
