// Whether a name table is sound, with room for its values: each name may stand in a table, and is there once.
#![tactic(auto)]

mod mark;

ghost use Rattle.std.specs.Prelude.{◌≡◌, ◌&&◌, [], ◌*◌, leb, take};
ghost use Rattle.paper.specs.Names.{names_in, sound_table};
ghost use Rattle.laws.specs.Names.{closed?};
ghost use Rattle.names_form.specs.Names.{spelling};
ghost use Rattle.names_sound.specs.Lawful.{lawful, sound_after};
ghost use Rattle.names_sound.specs.Marks.{Marks};

use mark::Mixed;
use names_form::{MOST_NAMES, table};

// Whether bytes are none, or end with a name's last byte.
fn is_closed(bytes: &[u8]) -> bool
    ensures { result ≡ closed? bytes.now }
{
    match bytes.last() {
        Some(last) => 128 <= *last,
        None => true,
    }
}

// Whether a name may stand in a table after the first so many names of some bytes, which are marked.
fn is_lawful(bytes: &[u8], number: usize, marks: &[u8; mark::PLACES], mixed: Mixed) -> bool
    requires { Marks marks.now (take number (names_in bytes.now)) }
    ensures { result ≡ lawful (spelling mixed.entry.name) (take number (names_in bytes.now)) }
{
    mixed.name.is_name() && !mixed.name.is_reserved() && !mixed.is_known(bytes, number, marks)
}

// Whether bytes are this many names that a sound table may hold. Each name that may stand there is marked, for those after it.
fn are_marked(bytes: &[u8], count: usize, marks: &mut [u8; mark::PLACES]) -> bool
    ensures { result ≡ sound_after [] (names_in bytes.now) count }
{
    let mut left = count;
    for (number, name) in table::names_in(bytes).enumerate() {
        if left == 0 {
            return false;
        }
        let mixed = Mixed::of(name);
        if !is_lawful(bytes, number, marks, mixed) {
            return false;
        }
        let place = mixed.place();
        marks[place] = mixed.one_more(marks[place]);
        left -= 1;
    }
    left == 0
}

// Whether bytes are this many names that a sound table may hold.
fn are_lawful(bytes: &[u8], count: usize) -> bool
    ensures { result ≡ sound_after [] (names_in bytes.now) count }
{
    if bytes.len() == 0 {
        return count == 0;
    }
    let mut marks = [0; mark::PLACES];
    are_marked(bytes, count, &mut marks)
}

// Whether a name table of `size` bytes and `count` names is sound.
// Stays with `size` beside `names`: it is a test of both, and a size past the end of the bytes is an answer of its own.
pub fn sound_table(names: &[u8], size: usize, count: usize) -> bool
    ensures { result ≡ sound_table names.now size count }
{
    if names.len() < size {
        return false;
    }
    if MOST_NAMES < count {
        return false;
    }
    if !is_closed(&names[..size]) {
        return false;
    }
    are_lawful(&names[..size], count)
}

// Whether there is room for the values of so many names.
pub fn values_fit(count: usize, value_room: usize) -> bool
    ensures { result ≡ leb (8 * count) value_room }
{
    count <= value_room / 8
}

// Whether a name table of `size` bytes and `count` names is sound, and there is room for the names' values.
pub fn sound(names: &[u8], size: usize, count: usize, value_room: usize) -> bool
    ensures { result ≡ sound_table names.now size count && leb (8 * count) value_room }
{
    values_fit(count, value_room) && sound_table(names, size, count)
}
