// What the bytes of a line are, and how long its listing is (document 02, §13): one walk over the pieces of a line that can be listed.
#![tactic(auto)]

ghost use Rattle.std.specs.Prelude.{◌≡◌, true, ◌≤◌, ◌^◌, length, take};
ghost use Rattle.paper.specs.Line.{lawful_number?};
ghost use Rattle.paper.specs.Names.{names_in};
ghost use Rattle.paper.specs.WellFormed.{formed?};
ghost use Rattle.paper.specs.Errors.{error_line?};
ghost use Rattle.names_kinds.specs.Kinds.{Kinds};
ghost use Rattle.list_pieces.specs.Rest.{Sound};
ghost use Rattle.list_weigh.specs.Weights.{Small, nothing as no-weight, plus, piece_weight, head_weight, formed_weight, error_weight, weighing, Slight};

use list_pieces::{Piece, Pieces};
use store::{GREATEST_NUMBER, heads};

// What some bytes of a program weigh: how many bytes their listing has, and how many of them are in variable tokens, in numbers, in strings, in raw text and in
// all else.
#[derive(Clone, Copy)]
pub struct Weight {
    pub listing: usize,
    pub variables: usize,
    pub numbers: usize,
    pub strings: usize,
    pub raw_text: usize,
    pub others: usize,
}

// The weight of no bytes.
pub fn nothing() -> Weight
    ensures { result ≡ no-weight }
{
    Weight {
        listing: 0,
        variables: 0,
        numbers: 0,
        strings: 0,
        raw_text: 0,
        others: 0,
    }
}

// Two weights added, column by column.
pub fn added(a: Weight, b: Weight) -> Weight
    requires { Small (2 ^ 46) a × Small (2 ^ 46) b }
    ensures { result ≡ plus a b }
{
    Weight {
        listing: a.listing + b.listing,
        variables: a.variables + b.variables,
        numbers: a.numbers + b.numbers,
        strings: a.strings + b.strings,
        raw_text: a.raw_text + b.raw_text,
        others: a.others + b.others,
    }
}

// The weight of a piece whose text has so many bytes. An offset, a statement's token and the end of raw text are in all else.
fn weight_of(piece: Piece, text: usize) -> Weight
    ensures { result ≡ piece_weight piece text }
{
    let mut w = nothing();
    w.listing = text;
    match piece {
        Piece::Word(_) => w.others = 2,
        Piece::Text(_, n) => {
            w.raw_text = n;
            w.others = 3;
        }
        Piece::Target(variable) => {
            w.variables = variable.size as usize;
            w.others = 2;
        }
        Piece::NoTarget => w.others = 3,
        Piece::Variable(variable) => w.variables = variable.size as usize,
        Piece::Constant => w.numbers = 7,
        Piece::Quoted(n) => w.strings = 2 + n as usize,
        Piece::Operator(_) => w.others = 1,
    }
    w
}

// The weight of a line's number and length; of its listing the number, the blank after it and the end byte.
fn weight_of_head(line: &[u8]) -> Weight
    requires { 2 ≤ length line.now }
    ensures { result ≡ head_weight line.now }
{
    let mut none = [0u8; 0];
    let mut w = nothing();
    w.listing = list_text::write_head(line, &mut none) + 1;
    w.others = 3;
    w
}

// The weight of a well-formed line over a sound name table of `size` bytes.
fn weigh_formed(line: &[u8], names: &[u8], size: usize) -> Weight
    requires { (formed? lawful_number? (names_in (take size names.now)) line.now ≡ true) × Sound names.now size × (size ≤ 65535) }
    ensures { (result ≡ formed_weight (names_in (take size names.now)) line.now) × Small (length line.now) result }
{
    let mut none = [0u8; 0];
    let mut total = weight_of_head(line);
    for (at, piece) in Pieces::of(line) {
        let text = list_text::write_piece(line, at, piece, names, size, &mut none, 0);
        total = added(total, weight_of(piece, text));
    }
    total
}

// The weight of an error line: its text is raw, and its other six bytes are in all else.
fn weigh_error(line: &[u8]) -> Weight
    requires { error_line? line.now ≡ true }
    ensures { (result ≡ error_weight line.now) × Small (length line.now) result }
{
    let mut none = [0u8; 0];
    let mut w = weight_of_head(line);
    w.listing = w.listing + list_error::write_error(line, &mut none, 0);
    w.raw_text = line.len() - 6;
    w.others = 6;
    w
}

// The weight of a stored line, of any bytes, over a sound name table of `size` bytes, the kinds of whose names are listed, if it can be listed. The caller lends
// the room for the stack of frames; what it holds does not matter.
pub fn weigh(
    line: &[u8],
    names: &[u8],
    size: usize,
    kinds: &[u8],
    frames: &mut [u8],
) -> Option<Weight>
    requires { Sound names.now size × (size ≤ 65535) × Kinds (names_in (take size names.now)) kinds.now × (2056 ≤ length frames.old) }
    ensures { (result ≡ weighing (names_in (take size names.now)) line.now) × Slight (length line.now) result }
{
    if list_error::is_error_line(line) {
        if GREATEST_NUMBER < heads::number(line) {
            return None;
        }
        return Some(weigh_error(line));
    }
    if !list_alone::well_formed_over(line, kinds, frames) {
        return None;
    }
    Some(weigh_formed(line, names, size))
}
