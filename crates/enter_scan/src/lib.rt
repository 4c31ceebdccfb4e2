// The item reader: what stands next in a part of a text, and where.
#![tactic(auto)]

mod names;
mod numbers;
mod symbols;

ghost use Rattle.std.specs.Prelude.{◌≡◌, suc, get_or, drop};
ghost use Rattle.paper.specs.Bytes.{pick, blank?};
ghost use Rattle.enter_scan.specs.Kinds.{shape_at, item_with, item_seen, raw_start, raw_seen, class_of};

use buffers::{Run, byte_at, is_letter, run_end};
use constant_bytes::Numeral;
use tokens::{FunctionToken, OperatorToken, StatementToken, class};

// What an item is: a name with its length (a number's variable, a string's, an array's), a number as it is written, a quoted string
// with its length, a symbol or word with its token, the text's end, or a byte that starts no item.
#[derive(Clone, Copy)]
pub enum Kind {
    Numeric(usize),
    Text(usize),
    Array(usize),
    Number(Numeral),
    Quoted(usize),
    Operator(OperatorToken),
    Function(FunctionToken),
    Statement(StatementToken),
    End,
    Bad,
}

// An item: its kind, where it starts and where it ends.
#[derive(Clone, Copy)]
pub struct Item {
    pub kind: Kind,
    pub at: usize,
    pub end: usize,
}

// An exponent: its length in the text, whether it is negative, and its value.
#[derive(Clone, Copy)]
pub(crate) struct Exponent {
    pub size: usize,
    pub down: bool,
    pub power: u8,
}

// Raw text: where it starts and where it ends.
#[derive(Clone, Copy)]
pub struct RawText {
    pub from: usize,
    pub end: usize,
}

// Stays a part and a place in it as two parameters in this crate: what is answered are places in the same part, so a pair would be taken apart and made again
// at each step.

// The item at a place where no blank stands; `first` says: in statement position.
pub fn item_at(part: &[u8], at: usize, first: bool) -> Item
    ensures { result ≡ item_with (shape_at first (drop at part.now)) at }
{
    if part.len() <= at {
        return Item {
            kind: Kind::End,
            at,
            end: at,
        };
    }
    let b = part[at];
    if is_letter(b) {
        return names::name_item(part, at, first);
    }
    let next = byte_at(part, at + 1);
    if numbers::begins_number(b, next) {
        return numbers::number_item(part, at);
    }
    if b == b'"' {
        return symbols::string_item(part, at);
    }
    if symbols::is_print_sign(b, first) {
        return Item {
            kind: Kind::Statement(StatementToken::QUESTION),
            at,
            end: at + 1,
        };
    }
    symbols::symbol_item(part, at)
}

// The next item from a place on, after the blanks there; `first` says: in statement position.
pub fn next_item(part: &[u8], at: usize, first: bool) -> Item
    ensures { result ≡ item_seen part.now at first }
{
    let start = run_end(part, at, Run::Blanks);
    item_at(part, start, first)
}

// The first class in statement position, else the second.
fn by_position(first: bool, a: u8, b: u8) -> u8
    ensures { result ≡ pick first a b }
{
    if first { a } else { b }
}

// The class of an item; `first` says: in statement position.
pub fn class_of(kind: Kind, first: bool) -> u8
    ensures { result ≡ class_of kind first }
{
    match kind {
        Kind::Numeric(_) => by_position(first, class::FIRST_NUMERIC, class::NUMERIC_VARIABLE),
        Kind::Text(_) => by_position(first, class::FIRST_STRING, class::STRING_VARIABLE),
        Kind::Array(_) => by_position(first, class::FIRST_ARRAY, class::ARRAY),
        Kind::Number(_) => class::NUMBER,
        Kind::Quoted(_) => class::QUOTED,
        Kind::Operator(t) => tokens::operator_class(t.0),
        Kind::Function(t) => tokens::operator_class(t.0),
        Kind::Statement(t) => tokens::statement_class(t),
        Kind::End => class::LINE_END,
        Kind::Bad => class::UNFIT,
    }
}

// Past a blank, if one stands there.
fn past_blank(part: &[u8], at: usize) -> usize
    ensures { result ≡ raw_start part.now at }
{
    if byte_at(part, at) == b' ' {
        at + 1
    } else {
        at
    }
}

// The raw text after REM or DATA: one blank, if there, is dropped, and a 9B ends it.
pub fn raw_text(part: &[u8], at: usize) -> RawText
    ensures { result ≡ raw_seen part.now at }
{
    let from = past_blank(part, at);
    RawText {
        from,
        end: run_end(part, from, Run::RawBytes),
    }
}
