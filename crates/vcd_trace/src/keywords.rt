// What words begin parts.
ghost use Rattle.std.specs.Prelude.{◌≡◌};
ghost use Rattle.vcd_trace.specs.Parts.{is_note, is_mark, is_end, keyword_of};

/// What a word begins or ends.
#[derive(Clone, Copy, Debug, PartialEq, Eq)]
pub enum Keyword {
    /// `$end`.
    End,
    /// What is skipped among the declarations: `$date`, `$version` and `$timescale`.
    Note,
    /// `$comment`.
    Comment,
    /// `$scope`.
    Scope,
    /// `$upscope`.
    Upscope,
    /// `$var`.
    Var,
    /// `$enddefinitions`.
    Definitions,
    /// `$dumpvars`, `$dumpall` and `$dumpon`.
    Mark,
    /// Any other word.
    Other,
}

pub(crate) fn is_end(text: &[u8]) -> bool
    ensures { result ≡ is_end text.now }
{
    text == b"$end".as_slice()
}

fn is_note(text: &[u8]) -> bool
    ensures { result ≡ is_note text.now }
{
    text == b"$date".as_slice()
        || text == b"$version".as_slice()
        || text == b"$timescale".as_slice()
}

fn is_mark(text: &[u8]) -> bool
    ensures { result ≡ is_mark text.now }
{
    text == b"$dumpvars".as_slice()
        || text == b"$dumpall".as_slice()
        || text == b"$dumpon".as_slice()
}

pub(crate) fn word_kind(text: &[u8]) -> Keyword
    ensures { result ≡ keyword_of text.now }
{
    if is_end(text) {
        Keyword::End
    } else if is_note(text) {
        Keyword::Note
    } else if text == b"$comment".as_slice() {
        Keyword::Comment
    } else if text == b"$scope".as_slice() {
        Keyword::Scope
    } else if text == b"$upscope".as_slice() {
        Keyword::Upscope
    } else if text == b"$var".as_slice() {
        Keyword::Var
    } else if text == b"$enddefinitions".as_slice() {
        Keyword::Definitions
    } else if is_mark(text) {
        Keyword::Mark
    } else {
        Keyword::Other
    }
}
