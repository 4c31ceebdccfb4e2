// How long pieces are with the new numbers of their variables, and where a statement then ends.
#![tactic(auto)]

ghost use Rattle.std.specs.Prelude.{◌≡◌, List, ℕ, ◌+◌, ◌≤◌, ◌<◌, ◌^◌, length, drop};
ghost use Rattle.paper.specs.Line.{number_bytes, to_next};
ghost use Rattle.list_pieces.specs.Pieces.{piece_at, size_of, end_after};
ghost use Rattle.list_mark.specs.Walks.{tokens_at};
ghost use Rattle.list_measure.specs.Numbers.{new_size, Passing, Passes};

use list_pieces::{Piece, Pieces};

// The first number whose token has two bytes.
pub const FIRST_LONG: u8 = 128;

// How many bytes the token of a variable with a number is.
fn token_size(number: u8) -> usize
    ensures { (result ≡ length (number_bytes number)) × (result ≤ 2) }
{
    if number < FIRST_LONG { 1 } else { 2 }
}

// How many bytes a piece is with the new numbers.
pub fn new_size(piece: Piece, numbers: &[u8]) -> usize
    requires { size_of piece < 2 ^ 64 }
    ensures { result ≡ new_size numbers.now piece }
{
    match piece {
        Piece::Word(_) => 2,
        Piece::Text(_, n) => 3 + n,
        Piece::Target(v) => 2 + token_size(buffers::byte_at(numbers, v.number as usize)),
        Piece::NoTarget => 3,
        Piece::Variable(v) => token_size(buffers::byte_at(numbers, v.number as usize)),
        Piece::Constant => 7,
        Piece::Quoted(n) => 2 + n as usize,
        Piece::Operator(_) => 1,
    }
}

// How many bytes stand from a place of a line to the next statement, or to the line's end, with the new numbers.
fn to_next(line: &[u8], from: usize, end: usize, numbers: &[u8]) -> usize
    requires { (from ≤ length line.now) × Passes numbers.now from end (drop from line.now) }
    ensures { (from + result ≤ length line.now) × ((ns new : List (List ℕ)) → Passing ns new numbers.now from end (drop from line.now) → result ≡ to_next new (tokens_at ns line.now from end)) }
{
    let mut n: usize = 0;
    let mut pieces = Pieces::within(line, from, end);
    while pieces.at != pieces.end {
        let Some((_, piece)) = pieces.next() else {
            return n;
        };
        n += new_size(piece, numbers);
    }
    n
}

// The new offset of the statement that begins with a piece at a place, if one begins there; the piece's new place is `to`.
// Stays a number and no Option: what is answered where no statement begins is not read, and list_write writes the offset of each piece that has one alike.
pub fn new_offset(
    line: &[u8],
    at: usize,
    end: usize,
    piece: Piece,
    next: usize,
    to: usize,
    numbers: &[u8],
) -> u8
    requires { (at < length line.now) × (length line.now < 256) × (to ≤ at) × (piece_at at end (drop at line.now) ≡ piece) × (next ≡ end_after end (drop at line.now) piece) × Passes numbers.now at end (drop at line.now) }
    ensures { (ns new : List (List ℕ)) → Passing ns new numbers.now at end (drop at line.now) → at ≡ end → result ≡ to + new_size numbers.now piece + to_next new (tokens_at ns line.now (at + size_of piece) (end_after end (drop at line.now) piece)) }
{
    if at != end {
        return 0;
    }
    let after = at + list_pieces::size_of(piece);
    (to + new_size(piece, numbers) + to_next(line, after, next, numbers)) as u8
}
