// The words that are no names.
ghost use Rattle.std.specs.Prelude.{◌≡◌, IfOk, Err};
ghost use Rattle.verilog_text.specs.Tokens.{vtok_of_part};
ghost use Rattle.verilog_lexer.specs.Reading.{keyword_of, word_tok};

use lisa_words::{Name, NoMemory};
use std::alloc::Global;
use verilog_text::{VKeyword, VTokenPart};

pub fn keyword_of(word: &[u8]) -> Option<VKeyword>
    ensures { result ≡ keyword_of word.now }
{
    if word == b"module".as_slice() {
        Some(VKeyword::Module)
    } else if word == b"input".as_slice() {
        Some(VKeyword::Input)
    } else if word == b"wire".as_slice() {
        Some(VKeyword::Wire)
    } else if word == b"endmodule".as_slice() {
        Some(VKeyword::EndModule)
    } else if word == b"reg".as_slice() {
        Some(VKeyword::Reg)
    } else if word == b"initial".as_slice() {
        Some(VKeyword::Initial)
    } else if word == b"begin".as_slice() {
        Some(VKeyword::Begin)
    } else if word == b"end".as_slice() {
        Some(VKeyword::End)
    } else if word == b"always".as_slice() {
        Some(VKeyword::Always)
    } else if word == b"posedge".as_slice() {
        Some(VKeyword::PosEdge)
    } else if word == b"if".as_slice() {
        Some(VKeyword::If)
    } else if word == b"else".as_slice() {
        Some(VKeyword::Else)
    } else {
        None
    }
}

// A reserved word or a name.
pub fn word_part(alloc: Global, word: &[u8]) -> Result<VTokenPart, NoMemory>
    ensures { IfOk result (λ part. vtok_of_part part ≡ word_tok word.now) }
{
    match keyword_of(word) {
        Some(keyword) => Ok(VTokenPart::Reserved(keyword)),
        None => Ok(VTokenPart::Named(Name::from_bytes(alloc, word)?)),
    }
}
