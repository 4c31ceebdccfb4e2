// The second pass: every line is carried down with the new numbers of its variables. The place that is written never passes the place that is read.
ghost use Rattle.std.specs.Prelude.{◌≤◌, T, length, take};
ghost use Rattle.paper.specs.Bytes.{every};
ghost use Rattle.paper.specs.Store.{lines_in, whole_line?};
ghost use Rattle.editor_collect.specs.Carries.{AllPortable, AllCarried};

// Carries the whole lines in the used bytes of a store down, one after the other, each with its new numbers. Answers how many bytes they are then.
pub fn carry_lines(store: &mut [u8], used: usize, numbers: &[u8]) -> usize
    requires { (used ≤ length store.old) × T (every whole_line? (lines_in (take used store.old))) × AllPortable numbers.now (lines_in (take used store.old)) }
    ensures { AllCarried numbers.now (lines_in (take used store.old)) store.old result store.new }
{
    // Stays a loop by hand: the bytes that it writes hold the lines that it has still to read.
    let mut from: usize = 0;
    let mut to: usize = 0;
    while from < used {
        let size = store[from + 2] as usize;
        to += list_renumber::carry_line(&mut store[to..], from - to, size, numbers);
        from += size;
    }
    to
}
