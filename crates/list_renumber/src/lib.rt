// A line rewritten in place with the new numbers of its variables, or carried down as it is.
#![tactic(auto)]

ghost use Rattle.std.specs.Prelude.{◌+◌, ◌≤◌, ◌<◌, length, take, drop};
ghost use Rattle.list_renumber.specs.Lines.{Movable, Rewritten, Portable, Carried};

// Rewrites a well-formed line of `size` bytes at `from`, each of whose variables has a new number that is no greater: the line then stands at the front. Answers
// how long it is.
fn renumber_line(room: &mut [u8], from: usize, size: usize, numbers: &[u8]) -> usize
    requires { (3 ≤ size) × (size < 256) × (from + size ≤ length room.old) × Movable numbers.now (take size (drop from room.old)) }
    ensures { (result ≤ size) × Rewritten numbers.now (take size (drop from room.old)) room.old result room.new }
{
    let low = room[from];
    let high = room[from + 1];
    let stop = from + size;
    let mut at: usize = 3;
    let mut end: usize = 3;
    let mut to: usize = 3;
    // Stays a loop by hand: each piece is written into the bytes that the next are read from, which an iterator would hold lent.
    while at < size {
        let line = &room[from..stop];
        let piece = list_pieces::piece_at(line, at, end);
        let next = list_pieces::end_after(line, at, end, piece);
        let offset = list_measure::new_offset(line, at, end, piece, next, to, numbers);
        list_write::write_piece(room, from + at, to, piece, offset, numbers);
        to += list_measure::new_size(piece, numbers);
        at += list_pieces::size_of(piece);
        end = next;
    }
    buffers::put(room, 0, low);
    buffers::put(room, 1, high);
    buffers::put(room, 2, to as u8);
    to
}

// Carries a line of `size` bytes at `from` down to the front, an error line as it is, a well-formed one with the new numbers of its variables. Answers how long it
// is.
pub fn carry_line(room: &mut [u8], from: usize, size: usize, numbers: &[u8]) -> usize
    requires { (3 ≤ size) × (size < 256) × (from + size ≤ length room.old) × Portable numbers.now (take size (drop from room.old)) }
    ensures { (result ≤ size) × Carried numbers.now (take size (drop from room.old)) room.old result room.new }
{
    let stop = from + size;
    if list_error::is_error_line(&room[from..stop]) {
        store_gap::carry_down(room, 0, from, size);
        return size;
    }
    renumber_line(room, from, size, numbers)
}
