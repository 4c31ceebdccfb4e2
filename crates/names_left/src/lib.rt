// The names that are marked stay, with their values: one walk over the name table and the values, in place.
#![tactic(auto)]

ghost use Rattle.std.specs.Prelude.{◌≡◌, ◌+◌, ◌-◌, ◌*◌, ◌≤◌, ◌<◌, length, drop};
ghost use Rattle.std.proofs.lemmas.List.Edits.{sets};
ghost use Rattle.paper.specs.Names.{most_names};
ghost use Rattle.names_left.specs.Marks.{numbered};
ghost use Rattle.names_left.specs.Answers.{Tabled, Leaves};

use names_form::table;
use store_gap::carry_down;

// Moves a value from one number to another that is not above it, and writes the number into it.
fn move_value(values: &mut [u8], to: usize, from: usize)
    requires { (to ≤ from) × (to < 256) × (8 * from + 8 ≤ length values.old) }
    ensures { values.new ≡ sets values.old (8 * to) (numbered to (drop (8 * from) values.old)) }
{
    carry_down(values, 8 * to, 8 * from, 8);
    values[8 * to + 1] = to as u8;
}

// How many bytes the names that stay have, and how many names they are.
#[derive(Clone, Copy)]
pub struct Left {
    pub name_bytes: usize,
    pub name_count: usize,
}

// Keeps the names of a table of so many bytes whose marks are not 0, and their values with the new numbers; a mark becomes the new number of its name.
// Stays over three buffers, with `name_bytes` beside `names`: they are the rooms that a caller lends, and Leaves says of each whole room what it holds.
pub fn keep_marked(names: &mut [u8], name_bytes: usize, values: &mut [u8], marks: &mut [u8]) -> Left
    requires { Tabled names.old name_bytes values.old × (length marks.old ≡ most_names) }
    ensures { Leaves names.old name_bytes values.old marks.old result names.new values.new marks.new }
{
    let mut at: usize = 0;
    let mut left = Left {
        name_bytes: 0,
        name_count: 0,
    };
    for (number, mark) in marks.iter_mut().enumerate() {
        if at == name_bytes {
            return left;
        }
        let size = table::first_size(&names[at..name_bytes]);
        if *mark != 0 {
            carry_down(names, left.name_bytes, at, size);
            move_value(values, left.name_count, number);
            *mark = left.name_count as u8;
            left.name_bytes += size;
            left.name_count += 1;
        }
        at += size;
    }
    left
}
