// Unused names taken back (document 02, §12): the names that no line uses are removed with their values, and every line gets the new numbers. All in place.
#![tactic(auto)]

mod carry;
mod mark;

ghost use Rattle.std.specs.Prelude.{◌≡◌};
ghost use Rattle.paper.specs.Collect.{collect as collect-call};
ghost use Rattle.editor_edit.specs.States.{state};
ghost use Rattle.editor_collect.specs.Answers.{outcome};

use editor_edit::Editor;
use refusals::Refusal;

// How many names a table may hold: so many marks, one byte each. They are the scratch of a collection; the test of the lines has frames and kinds of its own.
const MOST_NAMES: usize = 256;

// Takes back the names that no line uses and returns the record afterwards, or refuses with 1 or 10 and changes nothing. The caller's record is then as it was.
// Stays with each buffer lent by itself: the export to C lends them so.
pub fn collect(
    names: &mut [u8],
    values: &mut [u8],
    store: &mut [u8],
    e: Editor,
) -> Result<Editor, Refusal>
    ensures { outcome e result names.new values.new store.new ≡ collect-call (state names.old values.old store.old e) }
{
    if !editor_sound::sound(names, values, store, e) {
        return Err(Refusal::Unsound);
    }
    let mut marks = [0u8; MOST_NAMES];
    if !mark::mark_lines(&store[..e.used], names, e.name_bytes, &mut marks) {
        return Err(Refusal::NotWellFormed);
    }
    let left = names_left::keep_marked(names, e.name_bytes, values, &mut marks);
    let bytes = carry::carry_lines(store, e.used, &marks);
    Ok(Editor {
        used: bytes,
        name_count: left.name_count,
        name_bytes: left.name_bytes,
        ..e
    })
}
