// What stands at a place of a token line, told by its first bytes.
#![tactic(auto)]

ghost use Rattle.std.specs.Prelude.{◌≡◌, ◌+◌, ◌<◌, ◌^◌, length, drop};
ghost use Rattle.list_pieces.specs.Variables.{variable_at, told};
ghost use Rattle.list_pieces.specs.Pieces.{piece_at, size_of, end_after};
ghost use Rattle.list_pieces.specs.Walk.{Steps, pieces_left};

use tokens::{OperatorToken, StatementToken};

// A variable's token: the variable's number, and how many bytes the token is.
#[derive(Clone, Copy)]
pub struct VariableToken {
    pub number: u16,
    pub size: u8,
}

// A piece of a line. `Word`: offset and statement token; `Text`: offset, REM or DATA, so many bytes of text, 9B; `Target`: offset, 36 and
// a variable's token; `NoTarget`: offset and 36, where no variable's token follows; `Variable`: a variable's token; `Constant`: 0E and six
// bytes; `Quoted`: 0F, a length byte, so many bytes; `Operator`: any other byte.
#[derive(Clone, Copy)]
pub enum Piece {
    Word(u8),
    Text(u8, usize),
    Target(VariableToken),
    NoTarget,
    Variable(VariableToken),
    Constant,
    Quoted(u8),
    Operator(u8),
}

// The byte from which on a byte is a variable's token.
pub const FIRST_VARIABLE: u8 = 0x80;

// The byte that a token of two bytes begins with, and the first number that has such a token.
const LONG_FORM: u8 = 0;

const FIRST_LONG: u16 = 128;

// The variable's token at a place of a line, if one stands there.
#[inline]
fn variable_at(line: &[u8], at: usize) -> Option<VariableToken>
    requires { at < length line.now + 2 }
    ensures { result ≡ told (variable_at (drop at line.now)) }
{
    let b = buffers::byte_at(line, at);
    if b == LONG_FORM {
        let low = buffers::byte_at(line, at + 1);
        return Some(VariableToken {
            number: FIRST_LONG + low as u16,
            size: 2,
        });
    }
    if b < FIRST_VARIABLE {
        return None;
    }
    Some(VariableToken {
        number: (b - FIRST_VARIABLE) as u16,
        size: 1,
    })
}

// The piece that begins a statement at a place.
#[inline]
fn first_piece(line: &[u8], at: usize) -> Piece
    requires { at < length line.now }
    ensures { result ≡ piece_at at at (drop at line.now) }
{
    let token = buffers::byte_at(line, at + 1);
    if token == StatementToken::LET_WITHOUT_WORD.0 {
        return match variable_at(line, at + 2) {
            Some(variable) => Piece::Target(variable),
            None => Piece::NoTarget,
        };
    }
    if tokens::is_raw_statement(StatementToken(token)) {
        let from = at + 2;
        return Piece::Text(
            token,
            buffers::run_end(line, from, buffers::Run::RawBytes) - from,
        );
    }
    Piece::Word(token)
}

// The piece at a place of a line, in a statement that ends at `end`.
#[inline]
pub fn piece_at(line: &[u8], at: usize, end: usize) -> Piece
    requires { at < length line.now }
    ensures { result ≡ piece_at at end (drop at line.now) }
{
    if at == end {
        return first_piece(line, at);
    }
    if let Some(variable) = variable_at(line, at) {
        return Piece::Variable(variable);
    }
    let b = line[at];
    if b == OperatorToken::NUMBER.0 {
        return Piece::Constant;
    }
    if b == OperatorToken::STRING.0 {
        return Piece::Quoted(buffers::byte_at(line, at + 1));
    }
    Piece::Operator(b)
}

// How many bytes a piece is.
#[inline]
pub fn size_of(piece: Piece) -> usize
    requires { size_of piece < 2 ^ 64 }
    ensures { result ≡ size_of piece }
{
    match piece {
        Piece::Word(_) => 2,
        Piece::Text(_, n) => 3 + n,
        Piece::Target(variable) => 2 + variable.size as usize,
        Piece::NoTarget => 3,
        Piece::Variable(variable) => variable.size as usize,
        Piece::Constant => 7,
        Piece::Quoted(n) => 2 + n as usize,
        Piece::Operator(_) => 1,
    }
}

// Where the statement after a piece at a place ends: as the piece's own offset says, or as before.
#[inline]
pub fn end_after(line: &[u8], at: usize, end: usize, piece: Piece) -> usize
    requires { at < length line.now }
    ensures { result ≡ end_after end (drop at line.now) piece }
{
    match piece {
        Piece::Word(_) | Piece::Text(_, _) | Piece::Target(_) | Piece::NoTarget =>
            line[at] as usize,
        _ => end,
    }
}

// The piece at a place of a line, in a statement that ends at `end`, and the place after the piece.
#[inline]
fn step(line: &[u8], at: usize, end: usize) -> (Piece, usize)
    requires { at < length line.now }
    ensures { (piece_at at end (drop at line.now) ≡ result.0) × (result.1 ≡ at + size_of result.0) }
{
    let piece = piece_at(line, at, end);
    (piece, at + size_of(piece))
}

// The pieces of a line, each with its place.
#[derive(Clone, Copy)]
pub struct Pieces<'a> {
    pub line: &'a [u8],
    pub at: usize,
    pub end: usize,
}

impl<'a> Pieces<'a> {
    // The pieces of a line from a place on, in a statement that ends at `end`.
    pub fn within(line: &'a [u8], at: usize, end: usize) -> Pieces<'a>
        ensures { (result.line.now ≡ line.now) × (result.at ≡ at) × (result.end ≡ end) }
    {
        Pieces { line, at, end }
    }

    // All pieces of a line: from its first statement on.
    pub fn of(line: &'a [u8]) -> Pieces<'a>
        ensures { (result.line.now ≡ line.now) × (result.at ≡ 3) × (result.end ≡ 3) }
    {
        Pieces::within(line, 3, 3)
    }
}

impl<'a> Iterator for Pieces<'a> {
    type Item = (usize, Piece);

    ghost next_gives = { Steps };

    ghost remaining = { pieces_left };

    // The next piece and its place.
    #[inline(always)]
    fn next(&mut self) -> Option<(usize, Piece)> {
        let at = self.at;
        if self.line.len() <= at {
            return None;
        }
        let (piece, after) = step(self.line, at, self.end);
        self.end = end_after(self.line, at, self.end, piece);
        self.at = after;
        Some((at, piece))
    }
}
