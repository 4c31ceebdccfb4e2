// Texts as they are read, before and after the store is looked at.
ghost use Rattle.std.specs.Prelude.{◌≡◌, ◌≤◌, T, length, take};
ghost use Rattle.paper.specs.Names.{names_in};
ghost use Rattle.paper.specs.Calls.{sound_state};
ghost use Rattle.editor_edit.specs.States.{state, typed_outcome, Lies};
ghost use Rattle.editor.specs.Readings.{asked_number, Ready, Edits, Prepared};

use buffers::front;
use editor_edit::{Editor, Entered, refused_at};
use enter_item::Draft;
use enter_line::{DIRECT_NUMBER, Reading};
use refusals::{Refusal, RefusedItem};
use store::Place;

// The most bytes that a text may have.
const LONGEST_TEXT: usize = 120;

// What a text of any length is read as over sound names, or its refusal, with a draft for its line and the names that are new in it. `direct` says
// whether one without a number is a line, `keep` whether a wrong line is kept.
pub(crate) fn read(
    text: &[u8],
    keep: bool,
    direct: bool,
    names: &[u8],
    e: Editor,
    draft: &mut Draft,
) -> Result<Reading, RefusedItem>
    requires { (e.name_bytes ≤ length names.now) × (255 ≤ length draft.old.line) × (240 ≤ length draft.old.fresh) }
    ensures { Prepared keep direct names.now e text.now draft.new.line draft.new.fresh result }
{
    if LONGEST_TEXT < text.len() {
        return Err(RefusedItem {
            refusal: Refusal::LongText,
            place: 0,
            end: 0,
        });
    }
    enter_line::read(text, keep, direct, &names[..e.name_bytes], draft)
}

// The number of the line that a text is about, as it was read; 0 of a text that is refused.
#[tactic(auto, unfolding(crate::specs::Readings::asked_number))]
pub(crate) fn asked(reading: Result<Reading, RefusedItem>) -> usize
    ensures { result ≡ asked_number reading }
{
    match reading {
        Ok(Reading::Delete(number)) => number,
        Ok(Reading::Read(l)) => l.number,
        Ok(Reading::Kept(l, _)) => l.number,
        Err(_) => 0,
    }
}

// What comes of a text that was read, over a sound state and with the place of the number that it asks for: its refusal, or the edit. A line without a
// number goes to the line buffer, a wrong line that is kept to the store.
pub(crate) fn edit(
    reading: Result<Reading, RefusedItem>,
    place: Place,
    draft: &Draft,
    names: &mut [u8],
    values: &mut [u8],
    store: &mut [u8],
    buffer: &mut [u8],
    e: Editor,
) -> Entered
    requires { (T (sound_state (state names.old values.old store.old e))) × (Lies place (asked_number reading) (state names.old values.old store.old e))
        × (Ready (names_in (take e.name_bytes names.old)) draft.now.line draft.now.fresh reading) }
    ensures { Edits (state names.old values.old store.old e) buffer.old draft.now.line draft.now.fresh reading (typed_outcome result names.new values.new store.new buffer.new) }
{
    let reading = match reading {
        Ok(reading) => reading,
        Err(item) => return refused_at(item, e),
    };
    let line = &draft.line;
    match reading {
        Reading::Delete(_) => editor_lines::take_out(place, names, values, store, e),
        Reading::Read(l) => {
            let new = front(&draft.fresh, l.named);
            if l.number == DIRECT_NUMBER {
                editor_accept::accept_direct(buffer, line, l.size, new, names, values, e)
            } else {
                editor_accept::accept(place, line, l.size, new, names, values, store, e)
            }
        }
        Reading::Kept(l, item) => {
            editor_lines::keep(place, front(line, l.size), item, names, values, store, e)
        }
    }
}
