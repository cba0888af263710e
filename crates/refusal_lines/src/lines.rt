//! The line that a refusal has on the second stream.
ghost use Rattle.std.specs.Prelude.{◌≡◌, ◌++◌, ◌∷◌, [], codes};
ghost use Rattle.lisa_io.specs.Contents.{Puts};
ghost use Rattle.refusal_lines.specs.Lines.{line_text, fields_text, field_text, value_text, line, name, text, number, integer, word, digest};
ghost use Rattle.refusal_lines.specs.LineViews.{line_of, fields_of, field_of, value_of};
ghost use Rattle.std.specs.Prelude.{false, decimal as decimal_digits};
ghost use Rattle.std.specs.Prelude.{◌<◌};
ghost use Rattle.std.specs.Fmt.{digits as hex_digits, digit_glyph, signed_decimal};
ghost use Rattle.lisa_object.specs.Texts.{byte_digits, digest_digits};

use lisa_io::{Failed, Sink, put_all};
use lisa_words::{Name, decimal, hex};

/// How a field of a fault is written.
#[derive(Clone, Copy)]
pub enum Value<'a> {
    Bare(&'a [u8]),
    Quoted(&'a [u8]),
    Decimal(u64),
    Signed(i128),
    Hexadecimal(u64),
    Digest(&'a [u8]),
}

/// A field of a fault with its label.
#[derive(Clone, Copy)]
pub struct Field<'a> {
    pub label: &'a [u8],
    pub value: Value<'a>,
}

/// The area, number and name of a fault, and its fields, of which there are at most five.
#[derive(Clone, Copy)]
pub struct Line<'a> {
    pub head: &'a [u8],
    pub first: Option<Field<'a>>,
    pub second: Option<Field<'a>>,
    pub third: Option<Field<'a>>,
    pub fourth: Option<Field<'a>>,
    pub fifth: Option<Field<'a>>,
}

/// A field with a name.
pub fn name_field<'a>(label: &'a [u8], value: &'a [u8]) -> Field<'a>
    ensures { field_of result ≡ name label.now value.now }
{
    Field {
        label,
        value: Value::Bare(value),
    }
}

/// A field with a text in double quotes.
pub fn text_field<'a>(label: &'a [u8], value: &'a [u8]) -> Field<'a>
    ensures { field_of result ≡ text label.now value.now }
{
    Field {
        label,
        value: Value::Quoted(value),
    }
}

/// A field with a decimal number.
pub fn number_field(label: &[u8], value: u64) -> Field<'_>
    ensures { field_of result ≡ number label.now value }
{
    Field {
        label,
        value: Value::Decimal(value),
    }
}

/// A field with a decimal number that may be negative.
pub fn integer_field(label: &[u8], value: i128) -> Field<'_>
    ensures { field_of result ≡ integer label.now value }
{
    Field {
        label,
        value: Value::Signed(value),
    }
}

/// A field with a word in hexadecimal.
pub fn word_field(label: &[u8], value: u64) -> Field<'_>
    ensures { field_of result ≡ word label.now value }
{
    Field {
        label,
        value: Value::Hexadecimal(value),
    }
}

/// A field with a digest.
pub fn digest_field<'a>(label: &'a [u8], bytes: &'a [u8]) -> Field<'a>
    ensures { field_of result ≡ digest label.now bytes.now }
{
    Field {
        label,
        value: Value::Digest(bytes),
    }
}

/// A line without fields.
pub fn line0(head: &[u8]) -> Line<'_>
    ensures { line_of result ≡ line head.now [] }
{
    Line {
        head,
        first: None,
        second: None,
        third: None,
        fourth: None,
        fifth: None,
    }
}

/// A line of one field.
pub fn line1<'a>(head: &'a [u8], first: Field<'a>) -> Line<'a>
    ensures { line_of result ≡ line head.now (field_of first.entry ∷ []) }
{
    Line {
        head,
        first: Some(first),
        second: None,
        third: None,
        fourth: None,
        fifth: None,
    }
}

/// A line of two fields.
pub fn line2<'a>(head: &'a [u8], first: Field<'a>, second: Field<'a>) -> Line<'a>
    ensures { line_of result ≡ line head.now (field_of first.entry ∷ field_of second.entry ∷ []) }
{
    Line {
        head,
        first: Some(first),
        second: Some(second),
        third: None,
        fourth: None,
        fifth: None,
    }
}

/// A line of three fields.
pub fn line3<'a>(head: &'a [u8], first: Field<'a>, second: Field<'a>, third: Field<'a>) -> Line<'a>
    ensures { line_of result ≡ line head.now (field_of first.entry ∷ field_of second.entry ∷ field_of third.entry ∷ []) }
{
    Line {
        head,
        first: Some(first),
        second: Some(second),
        third: Some(third),
        fourth: None,
        fifth: None,
    }
}

/// A line of five fields.
pub fn line5<'a>(
    head: &'a [u8],
    first: Field<'a>,
    second: Field<'a>,
    third: Field<'a>,
    fourth: Field<'a>,
    fifth: Field<'a>,
) -> Line<'a>
    ensures { line_of result ≡ line head.now (field_of first.entry ∷ field_of second.entry ∷ field_of third.entry ∷ field_of fourth.entry ∷ field_of fifth.entry ∷ []) }
{
    Line {
        head,
        first: Some(first),
        second: Some(second),
        third: Some(third),
        fourth: Some(fourth),
        fifth: Some(fifth),
    }
}

/// A line of a byte's place.
pub fn at_byte(head: &[u8], at: u32) -> Line<'_>
    ensures { line_of result ≡ line head.now (number (codes "at") at ∷ []) }
{
    line1(head, number_field(b"at", at as u64))
}

/// A line of a place among lines.
pub fn at_line(head: &[u8], at: u32) -> Line<'_>
    ensures { line_of result ≡ line head.now (number (codes "line") at ∷ []) }
{
    line1(head, number_field(b"line", at as u64))
}

/// A line of a name.
pub fn named_line<'a>(head: &'a [u8], value: &'a Name) -> Line<'a>
    ensures { line_of result ≡ line head.now (name (codes "name") value.now ∷ []) }
{
    line1(head, name_field(b"name", value.as_bytes()))
}

/// A line of a name at a place among lines.
pub fn at_line_named<'a>(head: &'a [u8], at: u32, value: &'a Name) -> Line<'a>
    ensures { line_of result ≡ line head.now (number (codes "line") at ∷ name (codes "name") value.now ∷ []) }
{
    line2(
        head,
        number_field(b"line", at as u64),
        name_field(b"name", value.as_bytes()),
    )
}

// The value of a field.
fn put_value<E: Sink>(err: &mut E, value: &Value<'_>) -> Result<(), Failed>
    ensures { Puts (E.written err.old) (E.written err.new) (E.faults err.old) (E.faults err.new) result (value_text (value_of value.now)) }
{
    match value {
        Value::Bare(text) => put_all(err, text),
        Value::Quoted(text) => put_quoted(err, text),
        Value::Decimal(value) => put_decimal(err, *value),
        Value::Signed(value) => put_integer(err, *value),
        Value::Hexadecimal(value) => put_word(err, *value),
        Value::Digest(bytes) => put_digest(err, bytes),
    }
}

fn put_quoted<E: Sink>(err: &mut E, text: &[u8]) -> Result<(), Failed>
    ensures { Puts (E.written err.old) (E.written err.new) (E.faults err.old) (E.faults err.new) result (codes "\"" ++ (text.now ++ codes "\"")) }
{
    put_all(err, b"\"")?;
    put_all(err, text)?;
    put_all(err, b"\"")
}

fn put_decimal<E: Sink>(err: &mut E, value: u64) -> Result<(), Failed>
    ensures { Puts (E.written err.old) (E.written err.new) (E.faults err.old) (E.faults err.new) result (decimal_digits value) }
{
    let mut digits = [0; 20];
    let count = decimal(value, &mut digits);
    put_all(err, &digits[..count])
}

// A decimal number of any size.
fn put_wide<E: Sink>(err: &mut E, value: u128) -> Result<(), Failed>
    ensures { Puts (E.written err.old) (E.written err.new) (E.faults err.old) (E.faults err.new) result (decimal_digits value) }
{
    if value < 10 {
        return put_all(err, &[48 + value as u8]);
    }
    put_wide(err, value / 10)?;
    put_all(err, &[48 + (value % 10) as u8])
}

// An integer, with `-` before a negative one.
fn put_integer<E: Sink>(err: &mut E, value: i128) -> Result<(), Failed>
    ensures { Puts (E.written err.old) (E.written err.new) (E.faults err.old) (E.faults err.new) result (signed_decimal value) }
{
    if value >= 0 {
        return put_wide(err, value.unsigned_abs());
    }
    put_all(err, b"-")?;
    put_wide(err, value.unsigned_abs())
}

fn put_word<E: Sink>(err: &mut E, value: u64) -> Result<(), Failed>
    ensures { Puts (E.written err.old) (E.written err.new) (E.faults err.old) (E.faults err.new) result (codes "0x" ++ hex_digits 16 false value) }
{
    let mut digits = [0; 16];
    let count = hex(value, &mut digits);
    put_all(err, b"0x")?;
    put_all(err, &digits[..count])
}

// The character of a digit below 16.
fn glyph(digit: u8) -> u8
    requires { digit < 16 }
    ensures { result ≡ digit_glyph false digit }
{
    if digit < 10 { 48 + digit } else { 87 + digit }
}

// Two digits of a byte.
fn put_byte<E: Sink>(err: &mut E, byte: u8) -> Result<(), Failed>
    ensures { Puts (E.written err.old) (E.written err.new) (E.faults err.old) (E.faults err.new) result (byte_digits byte) }
{
    put_all(err, &[glyph(byte / 16), glyph(byte % 16)])
}

// The digits of a digest.
fn put_digest<E: Sink>(err: &mut E, bytes: &[u8]) -> Result<(), Failed>
    ensures { Puts (E.written err.old) (E.written err.new) (E.faults err.old) (E.faults err.new) result (digest_digits bytes.now) }
{
    for place in 0..bytes.len() {
        put_byte(err, bytes[place])?;
    }
    Ok(())
}

// A field, where there is one.
fn put_field<E: Sink>(err: &mut E, field: &Option<Field<'_>>) -> Result<(), Failed>
    ensures { Puts (E.written err.old) (E.written err.new) (E.faults err.old) (E.faults err.new) result (fields_text (fields_of field.now)) }
{
    let Some(field) = field else {
        return Ok(());
    };
    put_one_field(err, field)
}

fn put_one_field<E: Sink>(err: &mut E, field: &Field<'_>) -> Result<(), Failed>
    ensures { Puts (E.written err.old) (E.written err.new) (E.faults err.old) (E.faults err.new) result (field_text (field_of field.now)) }
{
    put_all(err, b" ")?;
    put_all(err, field.label)?;
    put_all(err, b"=")?;
    put_value(err, &field.value)
}

// The last three fields.
fn put_last_fields<E: Sink>(err: &mut E, line: &Line<'_>) -> Result<(), Failed>
    ensures { Puts (E.written err.old) (E.written err.new) (E.faults err.old) (E.faults err.new) result
        (fields_text (fields_of line.now.third) ++ (fields_text (fields_of line.now.fourth) ++ fields_text (fields_of line.now.fifth))) }
{
    put_field(err, &line.third)?;
    put_field(err, &line.fourth)?;
    put_field(err, &line.fifth)
}

// The fields, in order.
fn put_fields<E: Sink>(err: &mut E, line: &Line<'_>) -> Result<(), Failed>
    ensures { Puts (E.written err.old) (E.written err.new) (E.faults err.old) (E.faults err.new) result
        (fields_text (fields_of line.now.first) ++ (fields_text (fields_of line.now.second)
        ++ (fields_text (fields_of line.now.third) ++ (fields_text (fields_of line.now.fourth) ++ fields_text (fields_of line.now.fifth))))) }
{
    put_field(err, &line.first)?;
    put_field(err, &line.second)?;
    put_last_fields(err, line)
}

/// Writes the line.
pub fn put_line<E: Sink>(err: &mut E, line: &Line<'_>) -> Result<(), Failed>
    ensures { Puts (E.written err.old) (E.written err.new) (E.faults err.old) (E.faults err.new) result (line_text (line_of line.now)) }
{
    put_all(err, b"lisa: ")?;
    put_all(err, line.head)?;
    put_fields(err, line)?;
    put_all(err, b"\n")
}
