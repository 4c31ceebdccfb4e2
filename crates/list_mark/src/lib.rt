// The variables that a line uses, marked.
#![tactic(auto)]

ghost use Rattle.std.specs.Prelude.{◌≡◌};
ghost use Rattle.list_mark.specs.Marks.{marked_piece, Readable, Marked};

use list_pieces::{Piece, Pieces};

// Marks the variable of a piece, if it has one.
fn mark_piece(piece: Piece, marks: &mut [u8])
    ensures { marks.new ≡ marked_piece piece marks.old }
{
    match piece {
        Piece::Target(variable) => buffers::put(marks, variable.number as usize, 1),
        Piece::Variable(variable) => buffers::put(marks, variable.number as usize, 1),
        _ => {}
    }
}

// Marks the variables that a well-formed line uses, each at its number. The other marks stay.
pub fn mark_line(line: &[u8], marks: &mut [u8])
    requires { Readable line.now }
    ensures { Marked line.now marks.old marks.new }
{
    let mut pieces = Pieces::of(line);
    while let Some((_, piece)) = pieces.next() {
        mark_piece(piece, marks);
    }
}
