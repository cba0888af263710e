// Texts that are cut at a byte.
ghost use Rattle.std.specs.Prelude.{◌≡◌, ◌<◌, ◌≤◌, ◌==◌, ◌∷◌, option_map, length, IfSome};
ghost use Rattle.std.specs.List.{position_or_len, slice_split};
ghost use Rattle.std.specs.Option.{option_copied};
ghost use Rattle.std.specs.Str.Lines.{lines, strip_carriage_return};
ghost use Rattle.text_lines.specs.Cuts.{parts_behind, lines_from};

fn place(text: &[u8], byte: u8) -> usize
    ensures value { result ≡ position_or_len (λ b. b == byte) text.now }
    ensures within { result ≤ length text.now }
{
    text.iter().take_while(|b| **b != byte).count()
}

/// What stands before the first such byte, and what stands behind it, if there is one.
///
/// So a text is cut into its parts by a loop.
pub fn cut(text: &[u8], byte: u8) -> (&[u8], Option<&[u8]>)
    ensures parts { slice_split (λ b. b == byte) text.now ≡ result.0.now ∷ parts_behind byte (option_copied result.1) }
    ensures shorter { IfSome result.1 (λ rest. length rest.now < length text.now) }
    ensures within { length result.0.now ≤ length text.now }
{
    let (front, rest) = text.split_at(place(text, byte));
    match rest {
        [] => (front, None),
        [_, rest @ ..] => (front, Some(rest)),
    }
}

// A line without the carriage return at its end.
fn without_return(line: &[u8]) -> &[u8]
    ensures { result.now ≡ strip_carriage_return line.now }
{
    match line {
        [front @ .., b'\r'] => front,
        _ => line,
    }
}

/// The first line, and the text behind it, where there is one.
///
/// A line ends at a line feed, and loses one carriage return before it. The last line may lack its line feed.
pub fn next_line(text: &[u8]) -> Option<(&[u8], &[u8])>
    ensures lines { lines text.now ≡ lines_from (option_map (λ x. (x.0.now, x.1.now)) result) }
    ensures shorter { IfSome result (λ x. length x.1.now < length text.now) }
{
    if text.is_empty() {
        return None;
    }
    let (front, rest) = cut(text, b'\n');
    match rest {
        Some(rest) => Some((without_return(front), rest)),
        None => {
            let (_, nothing) = text.split_at(text.len());
            Some((front, nothing))
        }
    }
}
