// A piece with the new number of its variable, written further down in the same bytes.
#![tactic(auto)]

ghost use Rattle.std.specs.Prelude.{◌≡◌, ◌+◌, ◌≤◌, length, take, drop};
ghost use Rattle.std.proofs.lemmas.List.Edits.{sets};
ghost use Rattle.paper.specs.Line.{number_bytes};
ghost use Rattle.list_pieces.specs.Pieces.{size_of};
ghost use Rattle.list_measure.specs.Numbers.{piece_bytes};

use list_measure::FIRST_LONG;
use list_pieces::Piece;
use store_gap::carry_down;
use tokens::StatementToken;

// Writes the token of the variable with a number.
fn write_number(room: &mut [u8], at: usize, number: u8)
    requires { at ≤ length room.old }
    ensures { room.new ≡ sets room.old at (number_bytes number) }
{
    if number < FIRST_LONG {
        buffers::put(room, at, FIRST_LONG + number);
    } else {
        buffers::put(room, at, 0);
        buffers::put(room, at + 1, number - FIRST_LONG);
    }
}

// Writes a piece that stands at `from` to the place `to`, with the new number of its variable, and with an offset where it begins a statement.
pub fn write_piece(
    room: &mut [u8],
    from: usize,
    to: usize,
    piece: Piece,
    offset: u8,
    numbers: &[u8],
)
    requires { (to ≤ from) × (from + size_of piece ≤ length room.old) }
    ensures { room.new ≡ sets room.old to (piece_bytes numbers.now offset (take (size_of piece) (drop from room.old)) piece) }
{
    match piece {
        Piece::Word(token) => {
            buffers::put(room, to, offset);
            buffers::put(room, to + 1, token);
        }
        Piece::Text(_, n) => {
            buffers::put(room, to, offset);
            carry_down(room, to + 1, from + 1, 2 + n);
        }
        Piece::Target(variable) => {
            buffers::put(room, to, offset);
            buffers::put(room, to + 1, StatementToken::LET_WITHOUT_WORD.0);
            write_number(
                room,
                to + 2,
                buffers::byte_at(numbers, variable.number as usize),
            );
        }
        Piece::NoTarget => {}
        Piece::Variable(variable) => {
            write_number(
                room,
                to,
                buffers::byte_at(numbers, variable.number as usize),
            );
        }
        Piece::Constant => carry_down(room, to, from, 7),
        Piece::Quoted(n) => carry_down(room, to, from, 2 + n as usize),
        Piece::Operator(token) => buffers::put(room, to, token),
    }
}
