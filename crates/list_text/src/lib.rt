// The text of a piece, and of a line's number.
#![tactic(auto)]

ghost use Rattle.std.specs.Prelude.{◌≡◌, List, [], ◌∷◌, ◌++◌, ℕ, ◌≤◌, ◌+◌, ◌-◌, ◌%◌, ◌^◌, length, take, drop, get_or};
ghost use Rattle.std.proofs.lemmas.List.Edits.{sets};
ghost use Rattle.paper.specs.Bytes.{blank};
ghost use Rattle.paper.specs.Tokens.{statement, operator};
ghost use Rattle.paper.specs.Names.{names_in, less_open};
ghost use Rattle.paper.specs.Line.{line_number};
ghost use Rattle.paper.specs.Listing.{decimal, token_text};
ghost use Rattle.names_numbered.specs.Standing.{all_cleared};
ghost use Rattle.tokens.specs.Tables.{fixed_words};
ghost use Rattle.tokens.specs.Parts.{bytes_at};
ghost use Rattle.list_pieces.specs.Pieces.{size_of, Holds};
ghost use Rattle.list_text.specs.Texts.{Writes, piece_text, zeros};

use list_pieces::Piece;
use names_form::table;
use tokens::{Part, Source, StatementToken, WORDS};

// How many bytes the fixed words have.
const WORDS_SIZE: usize = 355;

// The blank.
const BLANK: u8 = b' ';

// Writes bytes with their top bits cleared to a place, as many as fit.
// Stays with a place `n` beside `out`: each call writes at another place, and a place past the end is one where nothing fits, which no part of a slice is.
fn write_cleared(out: &mut [u8], n: usize, src: &[u8])
    requires { n ≤ 2 ^ 63 }
    ensures { out.new ≡ sets out.old n (all_cleared src.now) }
{
    for (i, b) in src.iter().enumerate() {
        buffers::put(out, n + i, table::clear(*b));
    }
}

// How many of the bytes from one place to another a slice of `size` bytes has.
fn size_between(size: usize, from: usize, end: usize) -> usize
    ensures { (s : List ℕ) → length s ≡ size → result ≡ length (take (end - from) (drop from s)) }
{
    size.min(end).saturating_sub(from)
}

// How many bytes stand at a part of the fixed words or of the name table.
fn spelled_size(names: &[u8], part: Part) -> usize
    ensures { result ≡ length (bytes_at fixed_words names.now part) }
{
    let from = part.from;
    let end = part.end;
    let source = part.source;
    match source {
        Source::Fixed => size_between(WORDS_SIZE, from, end),
        Source::Names => size_between(names.len(), from, end),
    }
}

// Writes the spelling at a part of the fixed words or of the name table to a place, as much as fits, and returns its length.
fn put_spelling(names: &[u8], part: Part, out: &mut [u8], n: usize) -> usize
    requires { n ≤ 2 ^ 63 }
    ensures { Writes (all_cleared (bytes_at fixed_words names.now part)) n out.old result out.new }
{
    let text = tokens::spelling(&WORDS, names, part);
    write_cleared(out, n, text);
    text.len()
}

// The same; where nothing fits, the words are not looked at.
fn write_spelling(names: &[u8], part: Part, out: &mut [u8], n: usize) -> usize
    requires { n ≤ 2 ^ 63 }
    ensures { Writes (all_cleared (bytes_at fixed_words names.now part)) n out.old result out.new }
{
    if out.len() <= n {
        spelled_size(names, part)
    } else {
        put_spelling(names, part, out, n)
    }
}

// Writes a statement's word and the blank after it.
fn write_word(token: u8, names: &[u8], out: &mut [u8], n: usize) -> usize
    requires { n ≤ length out.old }
    ensures { Writes (token_text (statement token)) n out.old result out.new }
{
    let size = write_spelling(names, tokens::statement_part(StatementToken(token)), out, n);
    buffers::put(out, n + size, BLANK);
    size + 1
}

// Writes an operator or function; a word operator has a blank of its own on each side.
fn write_operator(token: u8, names: &[u8], out: &mut [u8], n: usize) -> usize
    requires { n ≤ length out.old }
    ensures { Writes (token_text (operator token)) n out.old result out.new }
{
    let part = tokens::operator_part(token);
    if !tokens::is_word_operator(token) {
        return write_spelling(names, part, out, n);
    }
    buffers::put(out, n, BLANK);
    let size = write_spelling(names, part, out, n + 1);
    buffers::put(out, n + 1 + size, BLANK);
    size + 2
}

// Writes the name with a number, less its `(`.
// Stays with `size` beside `names`, as names_numbered::name_at: a size past the end of the bytes counts as their end.
fn write_name(number: usize, names: &[u8], size: usize, out: &mut [u8], n: usize) -> usize
    requires { n ≤ length out.old }
    ensures { Writes (less_open (get_or (names_in (take size names.now)) number [])) n out.old result out.new }
{
    let name = names_numbered::name_at(names, size, number);
    let part = Part {
        source: Source::Names,
        from: name.from,
        end: name.end,
    };
    write_spelling(names, part, out, n)
}

// Writes a string of the line in quotes.
fn write_quoted(line: &[u8], from: usize, size: u8, out: &mut [u8], n: usize) -> usize
    requires { (from + size ≤ length line.now) × (n ≤ length out.old) }
    ensures { Writes (34 ∷ take size (drop from line.now) ++ 34 ∷ []) n out.old result out.new }
{
    let k = size as usize;
    let end = from + k;
    buffers::put(out, n, b'"');
    buffers::copy(out, n + 1, &line[from..end]);
    buffers::put(out, n + 1 + k, b'"');
    k + 2
}

// Writes REM or DATA, the blank after it and its text.
fn write_text(
    line: &[u8],
    at: usize,
    token: u8,
    size: usize,
    names: &[u8],
    out: &mut [u8],
    n: usize,
) -> usize
    requires { (at + (3 + size) ≤ length line.now) × (n ≤ length out.old) }
    ensures { Writes (token_text (statement token) ++ take size (drop (at + 2) line.now)) n out.old result out.new }
{
    let word = write_word(token, names, out, n);
    let from = at + 2;
    let end = from + size;
    buffers::copy(out, n + word, &line[from..end]);
    word + size
}

// Writes the text of the piece at a place of a line to a place of a buffer, as much as fits, and returns its length.
pub fn write_piece(
    line: &[u8],
    at: usize,
    piece: Piece,
    names: &[u8],
    size: usize,
    out: &mut [u8],
    n: usize,
) -> usize
    requires { (at + size_of piece ≤ length line.now) × (n ≤ length out.old) × Holds (names_in (take size names.now)) (drop at line.now) piece }
    ensures { Writes (piece_text (names_in (take size names.now)) (drop at line.now) piece) n out.old result out.new }
{
    match piece {
        Piece::Word(token) => write_word(token, names, out, n),
        Piece::Text(token, k) => write_text(line, at, token, k, names, out, n),
        Piece::Target(variable) => write_name(variable.number as usize, names, size, out, n),
        Piece::NoTarget => 0,
        Piece::Variable(variable) => write_name(variable.number as usize, names, size, out, n),
        Piece::Constant => constant_text::write_text(line, at + 1, out, n),
        Piece::Quoted(k) => write_quoted(line, at + 2, k, out, n),
        Piece::Operator(token) => write_operator(token, names, out, n),
    }
}

// The last decimal digit of a number, as text.
fn digit(number: usize) -> u8
    ensures { result ≡ 48 + number % 10 }
{
    b'0' + (number % 10) as u8
}

// How many of the five digits of a number stand before its first.
fn zeros_before(number: usize) -> usize
    ensures { result ≡ zeros number }
{
    match number {
        0..=9 => 4,
        10..=99 => 3,
        100..=999 => 2,
        1000..=9999 => 1,
        _ => 0,
    }
}

// Writes a line's number and a blank to the front of a buffer, as much as fits, and returns their length.
pub fn write_head(line: &[u8], out: &mut [u8]) -> usize
    requires { 2 ≤ length line.now }
    ensures { Writes (decimal 5 (line_number line.now) ++ blank ∷ []) 0 out.old result out.new }
{
    let number = line[0] as usize + 256 * line[1] as usize;
    let digits = [
        digit(number / 10000),
        digit(number / 1000),
        digit(number / 100),
        digit(number / 10),
        digit(number),
        BLANK,
    ];
    let from = zeros_before(number);
    buffers::copy(out, 0, &digits[from..]);
    6 - from
}
