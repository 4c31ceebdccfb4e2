// The listing of a stored line, and of the line in a line buffer.
#![tactic(auto)]

ghost use Rattle.std.specs.Prelude.{◌≡◌, T, take};
ghost use Rattle.paper.specs.Names.{names_in};
ghost use Rattle.paper.specs.Calls.{sound_state, list_sound};
ghost use Rattle.paper.specs.Direct.{show_sound};
ghost use Rattle.list_pieces.specs.Rest.{Sound};
ghost use Rattle.editor_edit.specs.States.{state, Lies};
ghost use Rattle.editor_list.specs.Answers.{listed};

use editor_edit::Editor;
use refusals::Refusal;
use store::{Place, heads};

// Lists the line at a place over sound tables and a sound store, and answers how many bytes were written; or refuses with 9, 10 or 11, and writes nothing.
pub fn list_stored(
    place: Place,
    names: &[u8],
    values: &[u8],
    store: &[u8],
    e: Editor,
    out: &mut [u8],
) -> Result<usize, Refusal>
    requires { (T (sound_state (state names.now values.now store.now e))) × (Lies place place.number (state names.now values.now store.now e)) }
    ensures { listed result out.new ≡ list_sound place.number (state names.now values.now store.now e) out.old }
{
    if place.size == 0 {
        return Err(Refusal::NoLine);
    }
    let line = &store[place.at..place.at + place.size];
    list_line::list(line, false, names, e.name_bytes, out)
}

// Lists the line at the front of a line buffer over a sound name table of `size` bytes, and answers how many bytes were written; or refuses with 10 or
// 11, and writes nothing.
pub fn show_sound(line: &[u8], names: &[u8], size: usize, out: &mut [u8]) -> Result<usize, Refusal>
    requires { Sound names.now size }
    ensures { listed result out.new ≡ show_sound line.now (names_in (take size names.now)) out.old }
{
    let own = buffers::front(line, heads::size(line));
    list_line::list(own, true, names, size, out)
}
