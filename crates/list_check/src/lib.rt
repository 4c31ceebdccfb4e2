// The check of one piece: whether it is right, and fits where it stands.
#![tactic(auto)]

ghost use Rattle.std.specs.Prelude.{◌≡◌, List, ℕ, ◌+◌, ◌%◌, ◌≤◌, ◌<◌, length, take, drop};
ghost use Rattle.paper.specs.Names.{names_in};
ghost use Rattle.laws.specs.Counts.{class_count};
ghost use Rattle.list_pieces.specs.declared.Piece.TheVariants.{Word, Text, Target, Variable, Constant, Quoted, Operator};
ghost use Rattle.names_kinds.specs.Kinds.{kind_at, Kinds};
ghost use Rattle.list_check.specs.Passes.{Ended, Checked};
ghost use Rattle.list_check.specs.Walks.{KindOf, Listed, Goes};
ghost use Rattle.list_pieces.specs.Rest.{Numbered, Sound};

use list_pieces::{Piece, VariableToken};
use tokens::{StatementToken, class};

// The depth of the stack after a statement's word, if it fits.
fn check_word(line: &[u8], at: usize, token: u8, frames: &mut [u8], depth: usize) -> Option<usize>
    requires { (at < length line.now) × (depth + 24 ≤ length frames.old) }
    ensures { (ns : List (List ℕ)) → Numbered ns → Checked ns line.now at (Word token) frames.old depth result frames.new }
{
    if line.len() - at < 2 {
        return None;
    }
    let class = tokens::statement_class(StatementToken(token));
    let word = grammar::take_item(frames, depth, class)?;
    Some(word.depth)
}

// The same of raw text and its end, after their statement's word was taken.
fn check_raw(frames: &mut [u8], depth: usize) -> Option<usize>
    requires { depth + 16 ≤ length frames.old }
    ensures { Ended frames.old depth result frames.new }
{
    let text = grammar::take_item(frames, depth, class::RAW_TEXT)?;
    let end = grammar::take_item(frames, text.depth, class::RAW_END)?;
    Some(end.depth)
}

// The same of REM or DATA with its text.
fn check_text(
    line: &[u8],
    at: usize,
    token: u8,
    size: usize,
    frames: &mut [u8],
    depth: usize,
) -> Option<usize>
    requires { (at < length line.now) × (depth + 24 ≤ length frames.old) }
    ensures { (ns : List (List ℕ)) → Numbered ns → Checked ns line.now at (Text token size) frames.old depth result frames.new }
{
    let left = line.len() - at;
    if left < 3 {
        return None;
    }
    if left - 3 < size {
        return None;
    }
    let class = tokens::statement_class(StatementToken(token));
    let word = grammar::take_item(frames, depth, class)?;
    check_raw(frames, word.depth)
}

// The class of a variable that comes first in a statement, by its class elsewhere.
fn first_class(kind: u8) -> u8
    requires { kind < class_count }
    ensures { result ≡ kind + 3 }
{
    kind + (class::FIRST_NUMERIC - class::NUMERIC_VARIABLE)
}

// The same of LET without its word, and the variable that comes first, whose name is of a kind.
fn check_target(
    line: &[u8],
    at: usize,
    variable: VariableToken,
    kind: u8,
    frames: &mut [u8],
    depth: usize,
) -> Option<usize>
    requires { (at < length line.now) × (depth + 24 ≤ length frames.old) }
    ensures { (ns : List (List ℕ)) → Numbered ns → kind ≡ kind_at ns variable.number → Checked ns line.now at (Target variable) frames.old depth result frames.new }
{
    if line.len() - at < 2 + variable.size as usize {
        return None;
    }
    if kind == 0 {
        return None;
    }
    if names_kinds::WORD <= kind {
        return None;
    }
    let taken = grammar::take_item(frames, depth, first_class(kind))?;
    Some(taken.depth)
}

// The same of a variable of a class, 0 where there is no such name.
fn check_variable(
    line: &[u8],
    at: usize,
    variable: VariableToken,
    own: u8,
    frames: &mut [u8],
    depth: usize,
) -> Option<usize>
    requires { (at < length line.now) × (depth + 24 ≤ length frames.old) × (own < class_count) }
    ensures { (ns : List (List ℕ)) → Numbered ns → own ≡ kind_at ns variable.number % 8 → Checked ns line.now at (Variable variable) frames.old depth result frames.new }
{
    if line.len() - at < variable.size as usize {
        return None;
    }
    if own == 0 {
        return None;
    }
    let taken = grammar::take_next(frames, depth, own)?;
    Some(taken.depth)
}

// The same of a constant.
fn check_constant(line: &[u8], at: usize, frames: &mut [u8], depth: usize) -> Option<usize>
    requires { (at < length line.now) × (depth + 24 ≤ length frames.old) }
    ensures { (ns : List (List ℕ)) → Numbered ns → Checked ns line.now at Constant frames.old depth result frames.new }
{
    if !constant_text::is_right(line, at + 1) {
        return None;
    }
    let taken = grammar::take_next(frames, depth, class::NUMBER)?;
    Some(taken.depth)
}

// The same of a string of so many bytes.
fn check_quoted(line: &[u8], at: usize, size: u8, frames: &mut [u8], depth: usize) -> Option<usize>
    requires { (at < length line.now) × (depth + 24 ≤ length frames.old) }
    ensures { (ns : List (List ℕ)) → Numbered ns → Checked ns line.now at (Quoted size) frames.old depth result frames.new }
{
    let n = size as usize;
    if line.len() - at < 2 + n {
        return None;
    }
    let from = at + 2;
    if buffers::run_end(line, from, buffers::Run::StringBytes) - from < n {
        return None;
    }
    let taken = grammar::take_item(frames, depth, class::QUOTED)?;
    Some(taken.depth)
}

// The same of an operator or function: it must be the one that the grammar gives for what it is read as.
fn check_operator(token: u8, frames: &mut [u8], depth: usize) -> Option<usize>
    requires { depth + 24 ≤ length frames.old }
    ensures { (ns : List (List ℕ)) → Numbered ns → (l : List ℕ) (at : ℕ) → at < length l → Checked ns l at (Operator token) frames.old depth result frames.new }
{
    let read = tokens::read_as(token);
    let taken = grammar::take_next(frames, depth, tokens::operator_class(read))?;
    if grammar::given_operator(taken.gives, read) != token {
        return None;
    }
    Some(taken.depth)
}

// The class of the name with a number, 0 where there is none.
fn class_at(names: &[u8], size: usize, number: usize) -> u8
    requires { Sound names.now size }
    ensures { result ≡ kind_at (names_in (take size names.now)) number % 8 }
{
    let name = names_numbered::name_at(names, size, number);
    if name.end == name.from {
        return 0;
    }
    name.class
}

// The kind of the name with a number, 0 where there is none.
fn kind_at(names: &[u8], size: usize, number: usize) -> u8
    requires { Sound names.now size }
    ensures { result ≡ kind_at (names_in (take size names.now)) number }
{
    let own = class_at(names, size, number);
    if own == 0 {
        return 0;
    }
    if names_numbered::is_statement_word(names, size, number) {
        own + names_kinds::WORD
    } else {
        own
    }
}

// The depth of the stack after a piece at a place, if it fits there. Of the piece's variable, if it has one, the kind is given: of one that does not come first
// in a statement, its class is enough.
#[inline(always)]
fn check_kind(
    line: &[u8],
    at: usize,
    piece: Piece,
    kind: u8,
    frames: &mut [u8],
    depth: usize,
) -> Option<usize>
    requires { (at < length line.now) × (depth + 24 ≤ length frames.old) }
    ensures { (ns : List (List ℕ)) → Numbered ns → KindOf ns piece kind → Checked ns line.now at piece frames.old depth result frames.new }
{
    match piece {
        Piece::Word(token) => check_word(line, at, token, frames, depth),
        Piece::Text(token, n) => check_text(line, at, token, n, frames, depth),
        Piece::Target(variable) => check_target(line, at, variable, kind, frames, depth),
        Piece::NoTarget => None,
        Piece::Variable(variable) => {
            check_variable(line, at, variable, kind % names_kinds::WORD, frames, depth)
        }
        Piece::Constant => check_constant(line, at, frames, depth),
        Piece::Quoted(n) => check_quoted(line, at, n, frames, depth),
        Piece::Operator(token) => check_operator(token, frames, depth),
    }
}

// The kind of a piece's variable over a name table, or its class where it does not come first in a statement; 0 where the piece has none.
fn kind_among(piece: Piece, names: &[u8], size: usize) -> u8
    requires { Sound names.now size }
    ensures { KindOf (names_in (take size names.now)) piece result }
{
    match piece {
        Piece::Target(variable) => kind_at(names, size, variable.number as usize),
        Piece::Variable(variable) => class_at(names, size, variable.number as usize),
        _ => 0,
    }
}

// The kind of a piece's variable over a list of the kinds of all names, 0 where the piece has none.
#[inline]
fn kind_listed(piece: Piece, kinds: &[u8]) -> u8
    ensures { (ns : List (List ℕ)) → Kinds ns kinds.now → KindOf ns piece result }
{
    match piece {
        Piece::Target(variable) | Piece::Variable(variable) => {
            buffers::byte_at(kinds, variable.number as usize)
        }
        _ => 0,
    }
}

// The depth of the stack after the piece at a place, if it fits there, over a name table.
pub fn check_piece(
    line: &[u8],
    at: usize,
    piece: Piece,
    names: &[u8],
    size: usize,
    frames: &mut [u8],
    depth: usize,
) -> Option<usize>
    requires { (at < length line.now) × (depth + 24 ≤ length frames.old) × Sound names.now size }
    ensures { Checked (names_in (take size names.now)) line.now at piece frames.old depth result frames.new }
{
    let kind = kind_among(piece, names, size);
    check_kind(line, at, piece, kind, frames, depth)
}

// How a walk over a line goes on after a piece: so many bytes further, in a statement that ends there, over so many frames.
#[derive(Clone, Copy)]
pub struct Next {
    pub size: usize,
    pub end: usize,
    pub depth: usize,
}

// How a walk goes on after the piece at a place, in a statement that ends at `end`, over a list of the kinds of all names, if the piece fits.
pub fn check_next(
    line: &[u8],
    at: usize,
    end: usize,
    kinds: &[u8],
    frames: &mut [u8],
    depth: usize,
) -> Option<Next>
    requires { (at < length line.now) × (depth + 24 ≤ length frames.old) × Listed kinds.now }
    ensures { (ns : List (List ℕ)) → Numbered ns → Kinds ns kinds.now → Goes ns line.now at end frames.old depth result frames.new }
{
    let piece = list_pieces::piece_at(line, at, end);
    // Asked before the test: pieces are then told apart once, and what comes after each is known where it is tested.
    let size = list_pieces::size_of(piece);
    let stop = list_pieces::end_after(line, at, end, piece);
    let kind = kind_listed(piece, kinds);
    let depth = check_kind(line, at, piece, kind, frames, depth)?;
    Some(Next {
        size,
        end: stop,
        depth,
    })
}
