// The second pass over a line: its listing, written.
ghost use Rattle.std.specs.Prelude.{◌≡◌, true, ◌≤◌, length, take};
ghost use Rattle.std.proofs.lemmas.List.Edits.{sets};
ghost use Rattle.paper.specs.Names.{names_in};
ghost use Rattle.paper.specs.WellFormed.{formed?};
ghost use Rattle.list_head.specs.Heads.{lawful_for};
ghost use Rattle.list_line.specs.Listed.{formed_listing};

use list_pieces::Pieces;

// Writes the listing of a well-formed line to the front of a buffer that has room for it.
pub fn write_line(line: &[u8], direct: bool, names: &[u8], size: usize, out: &mut [u8])
    requires { (formed? (lawful_for direct) (names_in (take size names.now)) line.now ≡ true) × (length (formed_listing direct (names_in (take size names.now)) line.now) ≤ length out.old) }
    ensures { out.new ≡ sets out.old 0 (formed_listing direct (names_in (take size names.now)) line.now) }
{
    let mut n = list_head::write_head(line, direct, out);
    let mut pieces = Pieces::of(line);
    while let Some((at, piece)) = pieces.next() {
        n += list_text::write_piece(line, at, piece, names, size, out, n);
    }
}
