// The edits of a sound state that take a line with its new names: into the store, or into a line buffer.
#![tactic(auto)]

ghost use Rattle.std.specs.Prelude.{◌*◌, ◌≤◌, T, length, take};
ghost use Rattle.paper.specs.Names.{names_in};
ghost use Rattle.paper.specs.Line.{direct_number};
ghost use Rattle.paper.specs.Calls.{sound_state};
ghost use Rattle.laws.specs.Names.{Sound};
ghost use Rattle.editor_edit.specs.States.{state, entered, Lies};
ghost use Rattle.editor_accept.specs.Lines.{Readable, Accepts, AcceptsDirect};

use buffers::{copy, front};
use editor_edit::{Editor, Entered, refused};
use editor_names::{accepted, shortage};
use refusals::Refusal;
use store::{Counts, Place};

// Puts the first `size` bytes of a buffer, a line that was read, at the place of its number into a sound store, and the names that are new in it
// into the tables; or refuses it with 6, 7 or 8. Nothing is written before all tests have passed.
// Stays a buffer with a size beside it: a line that is too long has a size beyond the buffer, and is refused by it.
pub fn accept(
    place: Place,
    line: &[u8],
    size: usize,
    fresh: &[u8],
    names: &mut [u8],
    values: &mut [u8],
    store: &mut [u8],
    e: Editor,
) -> Entered
    requires { (T (sound_state (state names.old values.old store.old e))) × (Lies place place.number (state names.old values.old store.old e))
        × (Readable (names_in (take e.name_bytes names.old)) place.number line.now size fresh.now) }
    ensures { Accepts (state names.old values.old store.old e) place.number line.now size fresh.now (entered result names.new values.new store.new) }
{
    if let Some(refusal) = shortage(names.len(), values.len(), size, fresh, e) {
        return refused(refusal, e);
    }
    match store_edit::put_in(store, Counts::from(e), place, front(line, size)) {
        Some(after) => accepted(fresh, names, values, after, e),
        None => refused(Refusal::NoRoom, e),
    }
}

// Puts the first `size` bytes of a buffer, a line without a number that was read, to the front of a lent line buffer, and the names that are new in
// it into the tables; or refuses it with 6, 7 or 8. The store is not looked at. Nothing is written before all tests have passed, nor past the line.
// Stays a buffer with a size beside it, for the same reason.
pub fn accept_direct(
    buffer: &mut [u8],
    line: &[u8],
    size: usize,
    fresh: &[u8],
    names: &mut [u8],
    values: &mut [u8],
    e: Editor,
) -> Entered
    requires { (Sound names.old e.name_bytes e.name_count) × (8 * e.name_count ≤ length values.old)
        × (Readable (names_in (take e.name_bytes names.old)) direct_number line.now size fresh.now) }
    ensures { AcceptsDirect names.old values.old e buffer.old line.now size fresh.now result names.new values.new buffer.new }
{
    if let Some(refusal) = shortage(names.len(), values.len(), size, fresh, e) {
        return refused(refusal, e);
    }
    if buffer.len() < size {
        return refused(Refusal::NoRoom, e);
    }
    copy(buffer, 0, front(line, size));
    accepted(fresh, names, values, Counts::from(e), e)
}
