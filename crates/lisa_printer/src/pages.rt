// A text as it is written: each token goes behind the last one, on its line or on the next.
ghost use Rattle.std.specs.Prelude.{◌≡◌, ◌*◌, ◌++◌, ◌∷◌, [], false, IfOk, OnOk, replicate};
ghost use Rattle.lisa_printer.specs.CanonicalText.{is_semicolon, clings, leans, braces_after, rounds_after, ends_line, braces_shown, between};
ghost use Rattle.lisa_printer.specs.Sheets.{Sheet, blank_sheet, written, extended, finished};

use lisa_tree::Sign;
use lisa_words::NoMemory;
use std::alloc::Global;
use std::marker::Model;

/// The text so far, and the state in which the next token finds it.
#[derive(Drop)]
pub struct Page {
    bytes: Vec<u8>,
    braces: u64,
    rounds: u64,
    last: Option<Sign>,
}

impl Model for Page {
    ghost use Rattle.lisa_printer.specs.Sheets.{Sheet};

    ghost Value = { Sheet };

    ghost view = { λ p. record { text = p.bytes.items; braces = p.braces; rounds = p.rounds; last = p.last } };
}

impl Page {
    /// A page on which nothing is written.
    pub fn new(alloc: Global) -> Page
        ensures { result ≡ blank_sheet }
    {
        Page {
            bytes: Vec::new(alloc),
            braces: 0,
            rounds: 0,
            last: Some(Sign::OpenRound),
        }
    }

    /// The text, with the end of its last line.
    pub fn finish(self) -> Result<Vec<u8>, NoMemory>
        ensures { IfOk result (λ v. v.items ≡ finished self) }
    {
        let Page {
            mut bytes,
            rounds,
            last,
            ..
        } = self;
        if ends_line(rounds, last, false) {
            bytes.push(b'\n')?;
        }
        Ok(bytes)
    }

    /// A token behind the last one: its sign, if it is one, and its bytes.
    pub fn put_token(&mut self, sign: Option<Sign>, text: &[u8]) -> Result<(), NoMemory>
        ensures { OnOk result (self.new ≡ written self.old sign text.now) }
    {
        put_between(&mut self.bytes, self.braces, self.rounds, self.last, sign)?;
        self.bytes.extend_from_slice(text)?;
        self.braces = braces_after(self.braces, sign)?;
        self.rounds = rounds_after(self.rounds, sign)?;
        self.last = sign;
        Ok(())
    }

    /// More bytes of the last token.
    pub fn append(&mut self, text: &[u8]) -> Result<(), NoMemory>
        ensures { OnOk result (self.new ≡ extended self.old text.now) }
    {
        self.bytes.extend_from_slice(text)?;
        Ok(())
    }
}

fn is_semicolon(sign: Option<Sign>) -> bool
    ensures { result ≡ is_semicolon sign }
{
    matches!(sign, Some(Sign::Semicolon))
}

fn clings(sign: Option<Sign>) -> bool
    ensures { result ≡ clings sign }
{
    matches!(
        sign,
        Some(
            Sign::Semicolon
                | Sign::Comma
                | Sign::CloseRound
                | Sign::CloseSquare
                | Sign::OpenSquare
                | Sign::Dot
        )
    )
}

fn leans(sign: Option<Sign>) -> bool
    ensures { result ≡ leans sign }
{
    matches!(sign, Some(Sign::OpenRound | Sign::OpenSquare | Sign::Dot))
}

// More than 2^64 brackets would want more memory than there is.
fn braces_after(braces: u64, sign: Option<Sign>) -> Result<u64, NoMemory>
    ensures { IfOk result (λ n. n ≡ braces_after braces sign) }
{
    match sign {
        Some(Sign::OpenBrace) => braces.checked_add(1).ok_or(NoMemory),
        Some(Sign::CloseBrace) => Ok(braces.saturating_sub(1)),
        _ => Ok(braces),
    }
}

fn rounds_after(rounds: u64, sign: Option<Sign>) -> Result<u64, NoMemory>
    ensures { IfOk result (λ n. n ≡ rounds_after rounds sign) }
{
    match sign {
        Some(Sign::OpenRound) => rounds.checked_add(1).ok_or(NoMemory),
        Some(Sign::CloseRound) => Ok(rounds.saturating_sub(1)),
        _ => Ok(rounds),
    }
}

fn ends_line(rounds: u64, last: Option<Sign>, semicolon_follows: bool) -> bool
    ensures { result ≡ ends_line rounds last semicolon_follows }
{
    match last {
        Some(Sign::OpenBrace) => true,
        Some(Sign::CloseBrace) => !semicolon_follows,
        Some(Sign::Semicolon) => rounds == 0,
        _ => false,
    }
}

fn braces_shown(braces: u64, next: Option<Sign>) -> u64
    ensures { result ≡ braces_shown braces next }
{
    match next {
        Some(Sign::CloseBrace) => braces.saturating_sub(1),
        _ => braces,
    }
}

fn put_between(
    bytes: &mut Vec<u8>,
    braces: u64,
    rounds: u64,
    last: Option<Sign>,
    next: Option<Sign>,
) -> Result<(), NoMemory>
    ensures { OnOk result (bytes.new.items ≡ bytes.old.items ++ between braces rounds last next) }
{
    if ends_line(rounds, last, is_semicolon(next)) {
        bytes.push(b'\n')?;
        return put_blanks(bytes, braces_shown(braces, next));
    }
    if !(leans(last) || clings(next)) {
        bytes.push(b' ')?;
    }
    Ok(())
}

fn put_blanks(bytes: &mut Vec<u8>, braces: u64) -> Result<(), NoMemory>
    ensures { OnOk result (bytes.new.items ≡ bytes.old.items ++ replicate (2 * braces) 32) }
{
    for _ in 0..braces {
        bytes.extend_from_slice(b"  ")?;
    }
    Ok(())
}
