// The edits of a sound state that leave its tables: a line taken out of the store, or the error line of a text put into it.
#![tactic(auto)]

ghost use Rattle.std.specs.Prelude.{◌≡◌, T};
ghost use Rattle.paper.specs.Items.{span};
ghost use Rattle.paper.specs.Line.{line_number};
ghost use Rattle.paper.specs.Calls.{sound_state, delete, keep_line};
ghost use Rattle.editor_edit.specs.States.{state, entered, Lies};

use editor_edit::{Editor, Entered, refused};
use refusals::{Refusal, RefusedItem};
use store::{Counts, Place};

// Takes the line at a place out of a sound store.
pub fn take_out(place: Place, names: &[u8], values: &[u8], store: &mut [u8], e: Editor) -> Entered
    requires { (T (sound_state (state names.now values.now store.old e))) × (Lies place place.number (state names.now values.now store.old e)) }
    ensures { entered result names.now values.now store.new ≡ delete (state names.now values.now store.old e) place.number }
{
    match store_edit::take_out(store, Counts::from(e), place) {
        Some(left) => Entered {
            added: Ok(0),
            editor: e.with_counts(left),
        },
        None => refused(Refusal::NoLine, e),
    }
}

// Puts the error line of a text at the place of its number into a sound store, and answers that the text has no reading all the same, with the place in
// it and its end; or refuses it where there is no room. The tables stay as they are.
pub fn keep(
    place: Place,
    error_line: &[u8],
    wrong: RefusedItem,
    names: &[u8],
    values: &[u8],
    store: &mut [u8],
    editor: Editor,
) -> Entered
    requires { (T (sound_state (state names.now values.now store.old editor))) × (Lies place (line_number error_line.now) (state names.now values.now store.old editor)) }
    ensures { entered result names.now values.now store.new ≡ keep_line (state names.now values.now store.old editor) error_line.now (span wrong.place wrong.end) }
{
    let unread = RefusedItem {
        refusal: Refusal::NoReading,
        ..wrong
    };
    match store_edit::put_in(store, Counts::from(editor), place, error_line) {
        Some(after) => Entered {
            added: Err(unread),
            editor: editor.with_counts(after),
        },
        None => refused(Refusal::NoRoom, editor),
    }
}
