// The first pass over a line: whether it is well-formed, and how long its listing is.
ghost use Rattle.std.specs.Prelude.{◌≡◌, ◌≤◌, ◌<◌, ◌+◌, ◌^◌, length, take, get_or};
ghost use Rattle.paper.specs.Names.{names_in};
ghost use Rattle.list_pieces.specs.Rest.{Sound, Head};
ghost use Rattle.list_head.specs.Heads.{lawful_for};
ghost use Rattle.list_line.specs.Listed.{capped, measured};

use list_alone::DEEPEST;
use list_pieces::Pieces;

// The sum of two lengths, or the first that is longer than the room.
fn longer(total: usize, more: usize, room: usize) -> usize
    requires { (room < 2 ^ 63) × (total ≤ room + 1) }
    ensures { result ≡ capped room (total + more) }
{
    if room < total {
        return total;
    }
    if room - total < more {
        room + 1
    } else {
        total + more
    }
}

// The first pass over a line whose head is right: the length of its listing, or the first that is longer than the room, if the line is well-formed. The stack of frames begins with the frame of a statement; what `none` holds does not matter.
fn measure_body(
    line: &[u8],
    direct: bool,
    names: &[u8],
    size: usize,
    room: usize,
    frames: &mut [u8],
    none: &mut [u8],
) -> Option<usize>
    requires { Head (lawful_for direct) line.now × Sound names.now size × (room < 2 ^ 63) × (2056 ≤ length frames.old) × (get_or frames.old 0 0 ≡ 0) }
    ensures { result ≡ measured direct (names_in (take size names.now)) line.now room }
{
    let mut depth: usize = 1;
    let mut total = longer(0, list_head::write_head(line, direct, none), room);
    let mut pieces = Pieces::of(line);
    while let Some((at, piece)) = pieces.next() {
        depth = list_check::check_piece(line, at, piece, names, size, frames, depth)?;
        let text = list_text::write_piece(line, at, piece, names, size, none, 0);
        total = longer(total, text, room);
    }
    if pieces.end != pieces.at {
        return None;
    }
    if depth != 0 {
        return None;
    }
    Some(total)
}

// Whether a line, stored or direct, is well-formed over a sound name table, and how long its listing is, up to a room.
pub fn measure_line(
    line: &[u8],
    direct: bool,
    names: &[u8],
    size: usize,
    room: usize,
) -> Option<usize>
    requires { Sound names.now size × (room < 2 ^ 63) }
    ensures { result ≡ measured direct (names_in (take size names.now)) line.now room }
{
    if !list_head::is_right(line, direct) {
        return None;
    }
    let mut frames = [0u8; DEEPEST];
    let mut none = [0u8; 0];
    measure_body(line, direct, names, size, room, &mut frames, &mut none)
}
