// The text of a module.
ghost use Rattle.std.specs.Prelude.{◌≡◌, ◌++◌, ◌+◌, ◌-◌, ◌≤◌, ◌<◌, ◌∷◌, ◌^◌, [], ℕ, List, suc, IfOk, OnOk, map, flat_map, length, nat_lt, if◌then◌else◌};
ghost use Rattle.std.specs.Fmt.{decimal as decimal_digits};
ghost use Rattle.lisa_words.specs.Operators.{level_of};
ghost use Rattle.verilog_text.specs.Trees.{vexpr_tree, vexpr_trees, action_then, action_trees, setting_tree, member_tree, module_tree, set_then, Done, If as IfTree, Join as JoinTree, Array as ArrayTree, Wire as WireTree, Always as AlwaysTree};
ghost use Rattle.verilog_text.specs.Grammar.{vsign_of, vone_sign, setting_tokens};
ghost use Rattle.verilog_text.specs.Tokens.{Named, Reserved, Sized, Plain, Mark};
ghost use Rattle.verilog_text.specs.Lexing.{vword_text};
ghost use Rattle.verilog_text.specs.Spelling.{VSpells};
ghost use Rattle.verilog_text.specs.Pieces.{piece_tok};
ghost use Rattle.verilog_text.specs.Printing.{own_level, bare, shown, parts_tokens, more_tokens, action_tokens, else_tokens, range_tokens, member_tokens, input_tokens, head_tokens, module_tokens, plain, piece_text, vsign_text, token_text, space_behind, tokens_text, module_text, module_size};

use crate::expressions::{VExpr, VOne};
use crate::modules::{Action, Member, Module};
use crate::pieces::Piece;
use crate::tokens::{VKeyword, VSign};
use lisa_engine::{ArrayItem, Item};
use lisa_words::{Name, NoMemory, Operator, Word, decimal, level};
use std::alloc::{AllocError, Global};

fn operator_sign(operator: Operator) -> VSign
    ensures { result ≡ vsign_of operator }
{
    match operator {
        Operator::OneTrue => VSign::OrOr,
        Operator::BothTrue => VSign::AndAnd,
        Operator::Or => VSign::Or,
        Operator::Xor => VSign::Caret,
        Operator::And => VSign::And,
        Operator::Equal => VSign::EqualEqual,
        Operator::Unequal => VSign::NotEqual,
        Operator::Less => VSign::Less,
        Operator::LessEqual => VSign::LessEqual,
        Operator::Greater => VSign::Greater,
        Operator::GreaterEqual => VSign::GreaterEqual,
        Operator::Left => VSign::ShiftLeft,
        Operator::Right => VSign::ShiftRight,
        Operator::Add => VSign::Plus,
        Operator::Sub => VSign::Minus,
        Operator::Mul => VSign::Star,
    }
}

fn one_sign(one: VOne) -> VSign
    ensures { result ≡ vone_sign one }
{
    match one {
        VOne::Complement => VSign::Tilde,
        VOne::Negate => VSign::Exclamation,
    }
}

// The level at which an expression is spelled without parentheses.
fn own_level(e: &VExpr) -> u8
    ensures { result ≡ own_level (vexpr_tree e.now) }
{
    match e {
        VExpr::One(_, _) => 11,
        VExpr::Two(operator, _, _) => level(*operator),
        VExpr::Choose(_, _, _) => 0,
        _ => 12,
    }
}

fn put_sign<'a>(out: &mut Vec<Piece<'a>>, sign: VSign) -> Result<(), AllocError>
    ensures { OnOk result (map piece_tok out.new.items ≡ map piece_tok out.old.items ++ Mark sign ∷ []) }
{
    out.push(Piece::Sign(sign))?;
    Ok(())
}

fn put_word<'a>(out: &mut Vec<Piece<'a>>, word: VKeyword) -> Result<(), AllocError>
    ensures { OnOk result (map piece_tok out.new.items ≡ map piece_tok out.old.items ++ Reserved word ∷ []) }
{
    out.push(Piece::Reserved(word))?;
    Ok(())
}

fn put_name<'a>(out: &mut Vec<Piece<'a>>, name: &'a Name) -> Result<(), AllocError>
    ensures { OnOk result (map piece_tok out.new.items ≡ map piece_tok out.old.items ++ Named name.now ∷ []) }
{
    out.push(Piece::Named(name))?;
    Ok(())
}

fn put_plain<'a>(out: &mut Vec<Piece<'a>>, value: u32) -> Result<(), AllocError>
    ensures { OnOk result (map piece_tok out.new.items ≡ map piece_tok out.old.items ++ plain value ∷ []) }
{
    out.push(Piece::Plain(value))?;
    Ok(())
}

// The expression at a level, in parentheses where it is looser.
#[cycle(shown)]
fn put<'a>(out: &mut Vec<Piece<'a>>, e: &'a VExpr, level: u8) -> Result<(), AllocError>
    ensures { OnOk result (map piece_tok out.new.items ≡ map piece_tok out.old.items ++ shown level (vexpr_tree e.now)) }
{
    if own_level(e) < level {
        put_sign(out, VSign::OpenRound)?;
        put_bare(out, e)?;
        put_sign(out, VSign::CloseRound)
    } else {
        put_bare(out, e)
    }
}

// The expression without parentheses round it.
#[cycle(shown)]
fn put_bare<'a>(out: &mut Vec<Piece<'a>>, e: &'a VExpr) -> Result<(), AllocError>
    ensures { OnOk result (map piece_tok out.new.items ≡ map piece_tok out.old.items ++ bare (vexpr_tree e.now)) }
{
    match e {
        VExpr::Number(word) => {
            out.push(Piece::Sized(word))?;
            Ok(())
        }
        VExpr::Named(name) => put_name(out, name),
        VExpr::Bits(name, high, low) => put_bits(out, name, *high, *low),
        VExpr::Cell(name, index) => {
            put_name(out, name)?;
            put_sign(out, VSign::OpenSquare)?;
            put(out, index, 0)?;
            put_sign(out, VSign::CloseSquare)
        }
        VExpr::One(one, operand) => {
            put_sign(out, one_sign(*one))?;
            put(out, operand, 12)
        }
        VExpr::Two(operator, left, right) => {
            let at = level(*operator);
            put(out, left, at)?;
            put_sign(out, operator_sign(*operator))?;
            put(out, right, at + 1)
        }
        VExpr::Choose(test, this, other) => {
            put(out, test, 1)?;
            put_sign(out, VSign::Question)?;
            put(out, this, 0)?;
            put_sign(out, VSign::Colon)?;
            put(out, other, 0)
        }
        VExpr::Join(parts) => put_join(out, parts),
        VExpr::Repeat(times, operand) => {
            put_sign(out, VSign::OpenBrace)?;
            put_plain(out, *times)?;
            put_sign(out, VSign::OpenBrace)?;
            put(out, operand, 0)?;
            put_sign(out, VSign::CloseBrace)?;
            put_sign(out, VSign::CloseBrace)
        }
    }
}

fn put_bits<'a>(
    out: &mut Vec<Piece<'a>>,
    name: &'a Name,
    high: u32,
    low: u32,
) -> Result<(), AllocError>
    ensures { OnOk result (map piece_tok out.new.items ≡ map piece_tok out.old.items ++ Named name.now ∷ Mark VSign.OpenSquare ∷ plain high ∷ Mark VSign.Colon ∷ plain low ∷ Mark VSign.CloseSquare ∷ []) }
{
    put_name(out, name)?;
    put_sign(out, VSign::OpenSquare)?;
    put_plain(out, high)?;
    put_sign(out, VSign::Colon)?;
    put_plain(out, low)?;
    put_sign(out, VSign::CloseSquare)
}

// A concatenation.
#[cycle(shown)]
fn put_join<'a>(out: &mut Vec<Piece<'a>>, parts: &'a [VExpr]) -> Result<(), AllocError>
    ensures { OnOk result (map piece_tok out.new.items ≡ map piece_tok out.old.items ++ bare (JoinTree (vexpr_trees parts.now))) }
{
    put_sign(out, VSign::OpenBrace)?;
    put_parts(out, parts)?;
    put_sign(out, VSign::CloseBrace)
}

// Expressions with commas between them.
#[cycle(shown)]
fn put_parts<'a>(out: &mut Vec<Piece<'a>>, parts: &'a [VExpr]) -> Result<(), AllocError>
    ensures { OnOk result (map piece_tok out.new.items ≡ map piece_tok out.old.items ++ parts_tokens (vexpr_trees parts.now)) }
{
    let [first, rest @ ..] = parts else {
        return Ok(());
    };
    put(out, first, 0)?;
    put_more(out, rest)
}

// Expressions with a comma in front of each.
#[cycle(shown)]
fn put_more<'a>(out: &mut Vec<Piece<'a>>, parts: &'a [VExpr]) -> Result<(), AllocError>
    ensures { OnOk result (map piece_tok out.new.items ≡ map piece_tok out.old.items ++ more_tokens (vexpr_trees parts.now)) }
{
    'each: for part in parts {
        put_one_more(out, part)?;
    }
    Ok(())
}

#[cycle(shown)]
fn put_one_more<'a>(out: &mut Vec<Piece<'a>>, part: &'a VExpr) -> Result<(), AllocError>
    ensures { OnOk result (map piece_tok out.new.items ≡ map piece_tok out.old.items ++ Mark VSign.Comma ∷ shown 0 (vexpr_tree part.now)) }
{
    put_sign(out, VSign::Comma)?;
    put(out, part, 0)
}

// What an action assigns.
fn put_set<'a>(
    out: &mut Vec<Piece<'a>>,
    name: &'a Name,
    index: &'a Option<VExpr>,
    value: &'a VExpr,
) -> Result<(), AllocError>
    ensures { OnOk result (map piece_tok out.new.items ≡ map piece_tok out.old.items ++ action_tokens (set_then name.now index.now (vexpr_tree value.now) Done)) }
{
    put_name(out, name)?;
    if let Some(index) = index {
        put_sign(out, VSign::OpenSquare)?;
        put(out, index, 0)?;
        put_sign(out, VSign::CloseSquare)?;
    }
    put_sign(out, VSign::LessEqual)?;
    put(out, value, 0)?;
    put_sign(out, VSign::Semicolon)
}

// `begin`, the actions and `end`.
#[cycle(actions)]
fn put_block<'a>(out: &mut Vec<Piece<'a>>, actions: &'a [Action]) -> Result<(), AllocError>
    ensures { OnOk result (map piece_tok out.new.items ≡ map piece_tok out.old.items ++ Reserved VKeyword.Begin ∷ (action_tokens (action_trees actions.now) ++ Reserved VKeyword.End ∷ [])) }
{
    put_word(out, VKeyword::Begin)?;
    put_actions(out, actions)?;
    put_word(out, VKeyword::End)
}

#[cycle(actions)]
fn put_actions<'a>(out: &mut Vec<Piece<'a>>, actions: &'a [Action]) -> Result<(), AllocError>
    ensures { OnOk result (map piece_tok out.new.items ≡ map piece_tok out.old.items ++ action_tokens (action_trees actions.now)) }
{
    'each: for action in actions {
        put_action(out, action)?;
    }
    Ok(())
}

#[cycle(actions)]
fn put_action<'a>(out: &mut Vec<Piece<'a>>, action: &'a Action) -> Result<(), AllocError>
    ensures { OnOk result (map piece_tok out.new.items ≡ map piece_tok out.old.items ++ action_tokens (action_then action.now Done)) }
{
    match action {
        Action::Set(name, index, value) => put_set(out, name, index, value),
        Action::If(test, this, other) => put_if(out, test, this, other),
    }
}

#[cycle(actions)]
fn put_if<'a>(
    out: &mut Vec<Piece<'a>>,
    test: &'a VExpr,
    this: &'a [Action],
    other: &'a [Action],
) -> Result<(), AllocError>
    ensures { OnOk result (map piece_tok out.new.items ≡ map piece_tok out.old.items ++ action_tokens (IfTree (vexpr_tree test.now) (action_trees this.now) (action_trees other.now) Done)) }
{
    put_word(out, VKeyword::If)?;
    put_sign(out, VSign::OpenRound)?;
    put(out, test, 0)?;
    put_sign(out, VSign::CloseRound)?;
    put_block(out, this)?;
    put_else(out, other)
}

// `else` and its actions, where there are any.
#[cycle(actions)]
fn put_else<'a>(out: &mut Vec<Piece<'a>>, actions: &'a [Action]) -> Result<(), AllocError>
    ensures { OnOk result (map piece_tok out.new.items ≡ map piece_tok out.old.items ++ else_tokens (action_trees actions.now) (action_tokens (action_trees actions.now))) }
{
    if actions.len() == 0 {
        return Ok(());
    }
    put_word(out, VKeyword::Else)?;
    put_block(out, actions)
}

// A range of a width.
fn put_range<'a>(out: &mut Vec<Piece<'a>>, width: u32) -> Result<(), AllocError>
    ensures { OnOk result (map piece_tok out.new.items ≡ map piece_tok out.old.items ++ range_tokens width) }
{
    put_sign(out, VSign::OpenSquare)?;
    put_plain(out, width.saturating_sub(1))?;
    put_sign(out, VSign::Colon)?;
    put_plain(out, 0)?;
    put_sign(out, VSign::CloseSquare)
}

// First values.
fn put_settings<'a>(
    out: &mut Vec<Piece<'a>>,
    settings: &'a [(Name, Word)],
) -> Result<(), AllocError>
    ensures { OnOk result (map piece_tok out.new.items ≡ map piece_tok out.old.items ++ flat_map setting_tokens (map setting_tree settings.now)) }
{
    'each: for setting in settings {
        put_setting(out, setting)?;
    }
    Ok(())
}

fn put_setting<'a>(out: &mut Vec<Piece<'a>>, setting: &'a (Name, Word)) -> Result<(), AllocError>
    ensures { OnOk result (map piece_tok out.new.items ≡ map piece_tok out.old.items ++ setting_tokens (setting_tree setting.now)) }
{
    put_name(out, &setting.0)?;
    put_sign(out, VSign::Equal)?;
    out.push(Piece::Sized(&setting.1))?;
    put_sign(out, VSign::Semicolon)
}

fn put_array<'a>(out: &mut Vec<Piece<'a>>, array: &'a ArrayItem) -> Result<(), AllocError>
    ensures { OnOk result (map piece_tok out.new.items ≡ map piece_tok out.old.items ++ member_tokens (ArrayTree array.now)) }
{
    put_word(out, VKeyword::Reg)?;
    put_range(out, array.width)?;
    put_name(out, &array.name)?;
    put_sign(out, VSign::OpenSquare)?;
    put_plain(out, 0)?;
    put_sign(out, VSign::Colon)?;
    put_plain(out, array.depth.saturating_sub(1))?;
    put_sign(out, VSign::CloseSquare)?;
    put_sign(out, VSign::Semicolon)
}

fn put_wire<'a>(
    out: &mut Vec<Piece<'a>>,
    item: &'a Item,
    value: &'a VExpr,
) -> Result<(), AllocError>
    ensures { OnOk result (map piece_tok out.new.items ≡ map piece_tok out.old.items ++ member_tokens (WireTree item.now (vexpr_tree value.now))) }
{
    put_word(out, VKeyword::Wire)?;
    put_range(out, item.width)?;
    put_name(out, &item.name)?;
    put_sign(out, VSign::Equal)?;
    put(out, value, 0)?;
    put_sign(out, VSign::Semicolon)
}

fn put_always<'a>(
    out: &mut Vec<Piece<'a>>,
    clock: &'a Name,
    actions: &'a [Action],
) -> Result<(), AllocError>
    ensures { OnOk result (map piece_tok out.new.items ≡ map piece_tok out.old.items ++ member_tokens (AlwaysTree clock.now (action_trees actions.now))) }
{
    put_word(out, VKeyword::Always)?;
    put_sign(out, VSign::At)?;
    put_sign(out, VSign::OpenRound)?;
    put_word(out, VKeyword::PosEdge)?;
    put_name(out, clock)?;
    put_sign(out, VSign::CloseRound)?;
    put_block(out, actions)
}

fn put_member<'a>(
    out: &mut Vec<Piece<'a>>,
    clock: &'a Name,
    member: &'a Member,
) -> Result<(), AllocError>
    ensures { OnOk result (map piece_tok out.new.items ≡ map piece_tok out.old.items ++ member_tokens (member_tree clock.now member.now)) }
{
    match member {
        Member::Reg(item) => {
            put_word(out, VKeyword::Reg)?;
            put_range(out, item.width)?;
            put_name(out, &item.name)?;
            put_sign(out, VSign::Semicolon)
        }
        Member::Array(array) => put_array(out, array),
        Member::Wire(item, value) => put_wire(out, item, value),
        Member::Initial(settings) => {
            put_word(out, VKeyword::Initial)?;
            put_word(out, VKeyword::Begin)?;
            put_settings(out, settings)?;
            put_word(out, VKeyword::End)
        }
        Member::Always(actions) => put_always(out, clock, actions),
    }
}

fn put_members<'a>(
    out: &mut Vec<Piece<'a>>,
    clock: &'a Name,
    members: &'a [Member],
) -> Result<(), AllocError>
    ensures { OnOk result (map piece_tok out.new.items ≡ map piece_tok out.old.items ++ flat_map member_tokens (map (member_tree clock.now) members.now)) }
{
    'each: for member in members {
        put_member(out, clock, member)?;
    }
    Ok(())
}

fn put_input<'a>(out: &mut Vec<Piece<'a>>, item: &'a Item) -> Result<(), AllocError>
    ensures { OnOk result (map piece_tok out.new.items ≡ map piece_tok out.old.items ++ input_tokens item.now) }
{
    put_sign(out, VSign::Comma)?;
    put_word(out, VKeyword::Input)?;
    put_range(out, item.width)?;
    put_name(out, &item.name)
}

fn put_inputs<'a>(out: &mut Vec<Piece<'a>>, inputs: &'a [Item]) -> Result<(), AllocError>
    ensures { OnOk result (map piece_tok out.new.items ≡ map piece_tok out.old.items ++ flat_map input_tokens inputs.now) }
{
    'each: for item in inputs {
        put_input(out, item)?;
    }
    Ok(())
}

// Everything before the members.
fn put_head<'a>(out: &mut Vec<Piece<'a>>, whole: &'a Module) -> Result<(), AllocError>
    ensures { OnOk result (map piece_tok out.new.items ≡ map piece_tok out.old.items ++ head_tokens (module_tree whole.now)) }
{
    put_word(out, VKeyword::Module)?;
    put_name(out, &whole.name)?;
    put_sign(out, VSign::OpenRound)?;
    put_word(out, VKeyword::Input)?;
    put_name(out, &whole.clock)?;
    put_inputs(out, &whole.inputs)?;
    put_sign(out, VSign::CloseRound)?;
    put_sign(out, VSign::Semicolon)
}

fn put_module<'a>(out: &mut Vec<Piece<'a>>, whole: &'a Module) -> Result<(), AllocError>
    ensures { OnOk result (map piece_tok out.new.items ≡ map piece_tok out.old.items ++ module_tokens (module_tree whole.now)) }
{
    put_head(out, whole)?;
    put_members(out, &whole.clock, &whole.members)?;
    put_word(out, VKeyword::EndModule)
}

fn word_bytes(word: VKeyword) -> &'static [u8]
    ensures { result.now ≡ vword_text word }
{
    match word {
        VKeyword::Module => b"module",
        VKeyword::Input => b"input",
        VKeyword::Wire => b"wire",
        VKeyword::EndModule => b"endmodule",
        VKeyword::Reg => b"reg",
        VKeyword::Initial => b"initial",
        VKeyword::Begin => b"begin",
        VKeyword::End => b"end",
        VKeyword::Always => b"always",
        VKeyword::PosEdge => b"posedge",
        VKeyword::If => b"if",
        VKeyword::Else => b"else",
    }
}

fn sign_bytes(sign: VSign) -> &'static [u8]
    ensures { result.now ≡ vsign_text sign }
{
    match sign {
        VSign::ShiftLeft => b"<<",
        VSign::ShiftRight => b">>",
        VSign::LessEqual => b"<=",
        VSign::GreaterEqual => b">=",
        VSign::EqualEqual => b"==",
        VSign::NotEqual => b"!=",
        VSign::AndAnd => b"&&",
        VSign::OrOr => b"||",
        VSign::Xnor => b"^~",
        VSign::OpenBrace => b"{",
        VSign::CloseBrace => b"}",
        VSign::OpenRound => b"(",
        VSign::CloseRound => b")",
        VSign::OpenSquare => b"[",
        VSign::CloseSquare => b"]",
        VSign::Semicolon => b";",
        VSign::Comma => b",",
        VSign::Equal => b"=",
        VSign::Less => b"<",
        VSign::Greater => b">",
        VSign::Plus => b"+",
        VSign::Minus => b"-",
        VSign::Star => b"*",
        VSign::And => b"&",
        VSign::Or => b"|",
        VSign::Caret => b"^",
        VSign::Tilde => b"~",
        VSign::Exclamation => b"!",
        VSign::Question => b"?",
        VSign::Colon => b":",
        VSign::At => b"@",
    }
}

fn put_decimal(out: &mut Vec<u8>, value: u64) -> Result<(), AllocError>
    ensures { OnOk result (out.new.items ≡ out.old.items ++ decimal_digits value) }
{
    let mut digits = [0; 20];
    let count = decimal(value, &mut digits);
    out.extend_from_slice(&digits[..count])
}

fn put_sized(out: &mut Vec<u8>, word: &Word) -> Result<(), AllocError>
    ensures { OnOk result (out.new.items ≡ out.old.items ++ token_text (Sized word.now.width word.now.bits)) }
{
    put_decimal(out, word.width as u64)?;
    out.extend_from_slice(b"'d")?;
    put_decimal(out, word.bits)
}

fn put_text(out: &mut Vec<u8>, piece: &Piece) -> Result<(), AllocError>
    ensures { OnOk result (out.new.items ≡ out.old.items ++ token_text (piece_tok piece.now)) }
{
    match piece {
        Piece::Named(name) => {
            out.extend_from_slice(b"\\")?;
            out.extend_from_slice(name.as_bytes())
        }
        Piece::Reserved(word) => out.extend_from_slice(word_bytes(*word)),
        Piece::Sized(word) => put_sized(out, word),
        Piece::Plain(value) => put_decimal(out, *value as u64),
        Piece::Sign(sign) => out.extend_from_slice(sign_bytes(*sign)),
    }
}

// The white space behind a token.
fn space_behind(piece: &Piece) -> u8
    ensures { result ≡ space_behind (piece_tok piece.now) }
{
    match piece {
        Piece::Sign(VSign::Semicolon) => b'\n',
        Piece::Reserved(VKeyword::Begin | VKeyword::End) => b'\n',
        _ => b' ',
    }
}

fn put_piece(out: &mut Vec<u8>, piece: &Piece) -> Result<(), AllocError>
    ensures { OnOk result (out.new.items ≡ out.old.items ++ piece_text (piece_tok piece.now)) }
{
    put_text(out, piece)?;
    out.push(space_behind(piece))?;
    Ok(())
}

fn put_pieces(out: &mut Vec<u8>, pieces: &[Piece]) -> Result<(), AllocError>
    ensures { OnOk result (out.new.items ≡ out.old.items ++ tokens_text (map piece_tok pieces.now)) }
{
    'each: for piece in pieces {
        put_piece(out, piece)?;
    }
    Ok(())
}

fn write_module(alloc: Global, whole: &Module) -> Result<Vec<u8>, NoMemory>
    ensures { IfOk result (λ v. v.items ≡ module_text (module_tree whole.now)) }
{
    let mut pieces = Vec::new(alloc);
    put_module(&mut pieces, whole)?;
    let mut out = Vec::new(alloc);
    put_pieces(&mut out, &pieces)?;
    Ok(out)
}

/// The text of a module, which spells it.
pub fn print_module(alloc: Global, whole: &Module) -> Result<Vec<u8>, NoMemory>
    // Some bytes spell the module.
    requires { (bytes : List ℕ) × VSpells bytes (module_tree whole.now) }
    ensures value { IfOk result (λ v. v.items ≡ module_text (module_tree whole.now)) }
    ensures spells { IfOk result (λ v. VSpells v.items (module_tree whole.now)) }
    ensures size { IfOk result (λ v. length v.items ≤ module_size (module_tree whole.now)) }
{
    write_module(alloc, whole)
}
