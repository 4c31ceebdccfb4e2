// The calls over lent tables and a lent store: a text entered, a stored line listed, the line in a line buffer listed.
#![tactic(auto)]

mod readings;

ghost use Rattle.std.specs.Prelude.{◌≡◌, T};
ghost use Rattle.paper.specs.Calls.{sound_state, enter_with, list as list-call};
ghost use Rattle.paper.specs.Direct.{typed, show as show-call};
ghost use Rattle.editor_edit.specs.States.{state, entered, typed_outcome};
ghost use Rattle.editor_list.specs.Answers.{listed};

use editor_edit::{Editor, Entered, refused};
use editor_list::{list_stored, show_sound};
use enter_item::{Draft, LINE_ROOM, NAMES_ROOM};
use readings::{asked, edit, read};
use refusals::Refusal;
use store::Counts;

// Enters a text over sound tables and a sound store, or refuses it with 2 to 9; one without a number with 3. `keep` says whether a wrong line is kept.
pub fn enter_sound(
    text: &[u8],
    keep: bool,
    names: &mut [u8],
    values: &mut [u8],
    store: &mut [u8],
    e: Editor,
) -> Entered
    requires { T (sound_state (state names.old values.old store.old e)) }
    ensures { entered result names.new values.new store.new ≡ enter_with keep text.now (state names.old values.old store.old e) }
{
    let mut draft = Draft {
        line: [0u8; LINE_ROOM],
        fresh: [0u8; NAMES_ROOM],
    };
    let mut buffer = [0u8; 0];
    let reading = read(text, keep, false, names, e, &mut draft);
    let place = store::find_sound(store, Counts::from(e), asked(reading));
    edit(reading, place, &draft, names, values, store, &mut buffer, e)
}

// Enters a text: a line is put in or takes the place of the one with its number, a number alone deletes. A line without a number is written to the
// front of the line buffer, and the store stays as it is. A refusal, 1 to 9, changes nothing, but for a wrong line that is kept: where `keep` says so, a
// line with a number that is refused with 4 is put in as an error line. The text is read first, so that one walk over the store tests it and finds the
// place.
pub fn enter(
    text: &[u8],
    keep: bool,
    names: &mut [u8],
    values: &mut [u8],
    store: &mut [u8],
    line: &mut [u8],
    e: Editor,
) -> Entered
    ensures { typed_outcome result names.new values.new store.new line.new ≡ typed keep text.now (state names.old values.old store.old e) line.old }
{
    if !names_sound::sound(names, e.name_bytes, e.name_count, values.len()) {
        return refused(Refusal::Unsound, e);
    }
    let mut draft = Draft {
        line: [0u8; LINE_ROOM],
        fresh: [0u8; NAMES_ROOM],
    };
    let reading = read(text, keep, true, names, e, &mut draft);
    match store::find(store, Counts::from(e), asked(reading)) {
        Some(place) => edit(reading, place, &draft, names, values, store, line, e),
        None => refused(Refusal::Unsound, e),
    }
}

// Lists the line with a number into a buffer, and answers how many bytes were written; or refuses with 1, 9, 10 or 11 and writes nothing.
pub fn list(
    line: usize,
    names: &[u8],
    values: &[u8],
    store: &[u8],
    e: Editor,
    out: &mut [u8],
) -> Result<usize, Refusal>
    ensures { listed result out.new ≡ list-call line (state names.now values.now store.now e) out.old }
{
    if !names_sound::sound(names, e.name_bytes, e.name_count, values.len()) {
        return Err(Refusal::Unsound);
    }
    let place = store::find(store, Counts::from(e), line).ok_or(Refusal::Unsound)?;
    list_stored(place, names, values, store, e, out)
}

// Lists the line in a line buffer into another, and answers how many bytes were written; or refuses with 1, 10 or 11 and writes nothing.
pub fn show(
    line: &[u8],
    names: &[u8],
    name_bytes: usize,
    name_count: usize,
    values: &[u8],
    out: &mut [u8],
) -> Result<usize, Refusal>
    ensures { listed result out.new ≡ show-call line.now names.now name_bytes name_count values.now out.old }
{
    if !names_sound::sound(names, name_bytes, name_count, values.len()) {
        return Err(Refusal::Unsound);
    }
    show_sound(line, names, name_bytes, out)
}
