// Kinds of bytes, and runs of them.
ghost use Rattle.std.specs.Prelude.{◌≡◌, ◌+◌, ◌≤◌, ◌==◌, not, length};
ghost use Rattle.std.specs.List.{prefix_len, list_all, before_first};
ghost use Rattle.asm_source.specs.Bytes.{is_blank, is_digit, is_letter, is_name_byte, is_word, is_line_byte, is_name, skip_blanks, front_word, behind_word, front_is};

fn is_blank(b: u8) -> bool
    ensures { result ≡ is_blank b }
{
    b == b' ' || b == b'\t'
}

fn is_digit(b: u8) -> bool
    ensures { result ≡ is_digit b }
{
    b >= b'0' && b <= b'9'
}

fn is_letter(b: u8) -> bool
    ensures { result ≡ is_letter b }
{
    b >= b'A' && b <= b'Z' || b >= b'a' && b <= b'z' || b == b'_'
}

fn is_name_byte(b: u8) -> bool
    ensures { result ≡ is_name_byte b }
{
    is_letter(b) || is_digit(b)
}

fn is_word(b: u8) -> bool
    ensures { result ≡ is_word b }
{
    is_name_byte(b) || b == b'.'
}

fn is_line_byte(b: u8) -> bool
    ensures { result ≡ is_line_byte b }
{
    b >= b' ' && b <= b'~' || b == b'\t'
}

fn are_name_bytes(bytes: &[u8]) -> bool
    ensures { result ≡ list_all is_name_byte bytes.now }
{
    bytes.iter().all(|b| is_name_byte(*b))
}

/// Whether bytes are a name: a letter or `_`, then letters, digits and `_`, at most 64 bytes in all.
pub fn is_name(bytes: &[u8]) -> bool
    ensures { result ≡ is_name bytes.now }
{
    match bytes {
        [] => false,
        [first, rest @ ..] => is_letter(*first) && are_name_bytes(rest) && bytes.len() <= 64,
    }
}

// Whether each byte may stand in a line.
pub fn are_line_bytes(line: &[u8]) -> bool
    ensures { result ≡ list_all is_line_byte line.now }
{
    line.iter().all(|b| is_line_byte(*b))
}

// Whether the text is blank.
pub fn is_spaces(text: &[u8]) -> bool
    ensures { result ≡ list_all is_blank text.now }
{
    text.iter().all(|b| is_blank(*b))
}

// Whether a word character comes first.
pub fn starts_word(text: &[u8]) -> bool
    ensures { result ≡ front_is is_word text.now }
{
    match text {
        [] => false,
        [first, ..] => is_word(*first),
    }
}

fn blanks_len(text: &[u8]) -> usize
    ensures value { result ≡ prefix_len is_blank text.now }
    ensures within { result ≤ length text.now }
{
    text.iter().take_while(|b| is_blank(**b)).count()
}

// The text behind the blanks at its front.
pub fn skip_blanks(text: &[u8]) -> &[u8]
    ensures value { result.now ≡ skip_blanks text.now }
    ensures shorter { length result.now ≤ length text.now }
{
    let (_, rest) = text.split_at(blanks_len(text));
    rest
}

fn word_len(text: &[u8]) -> usize
    ensures value { result ≡ prefix_len is_word text.now }
    ensures within { result ≤ length text.now }
{
    text.iter().take_while(|b| is_word(**b)).count()
}

// The run of word characters at the front, and what follows it.
pub fn cut_word(text: &[u8]) -> (&[u8], &[u8])
    ensures word { result.0.now ≡ front_word text.now }
    ensures rest { result.1.now ≡ behind_word text.now }
    ensures whole { length result.0.now + length result.1.now ≡ length text.now }
{
    text.split_at(word_len(text))
}

fn statement_len(line: &[u8]) -> usize
    ensures value { result ≡ prefix_len (λ b. not (b == 59)) line.now }
    ensures within { result ≤ length line.now }
{
    line.iter().take_while(|b| **b != b';').count()
}

// The line without its comment.
pub fn without_comment(line: &[u8]) -> &[u8]
    ensures { result.now ≡ before_first (λ b. b == 59) line.now }
{
    let (text, _) = line.split_at(statement_len(line));
    text
}
