// The test that a call over the record begins with: whether all that is lent is sound.
#![tactic(auto)]

ghost use Rattle.std.specs.Prelude.{◌≡◌};
ghost use Rattle.paper.specs.Calls.{sound_state};
ghost use Rattle.editor_edit.specs.States.{state};

use editor_edit::Editor;
use store::Counts;

// Whether tables and store are sound, and the record agrees with the store.
pub fn sound(names: &[u8], values: &[u8], store: &[u8], e: Editor) -> bool
    ensures { result ≡ sound_state (state names.now values.now store.now e) }
{
    names_sound::sound(names, e.name_bytes, e.name_count, values.len())
        && store::sound(store, Counts::from(e))
}
