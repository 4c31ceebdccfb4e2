// The calls with the editor's record lent: a text entered, where the record is updated, and a stored line listed.
#![tactic(auto)]

ghost use Rattle.std.specs.Prelude.{◌≡◌};
ghost use Rattle.paper.specs.Calls.{list as list_call};
ghost use Rattle.paper.specs.Direct.{typed};
ghost use Rattle.editor_edit.specs.States.{state};
ghost use Rattle.editor_list.specs.Answers.{listed};
ghost use Rattle.editor_lent.specs.Answers.{answered};

use editor::{enter, list};
use editor_edit::Editor;
use refusals::{Refusal, RefusedItem};

// Enters a text as `enter` does, over a lent record, which is updated, and returns how many names were added. A wrong line that is kept is a refusal too, of which
// the record counts the line.
// Stays with each buffer lent by itself, as they come to `enter`, which the export to C calls with them so.
pub fn enter_lent(
    text: &[u8],
    keep: bool,
    names: &mut [u8],
    values: &mut [u8],
    store: &mut [u8],
    line: &mut [u8],
    e: &mut Editor,
) -> Result<usize, RefusedItem>
    ensures { answered result names.new values.new store.new line.new e.new ≡ typed keep text.now (state names.old values.old store.old e.old) line.old }
{
    let r = enter(text, keep, names, values, store, line, *e);
    *e = r.editor;
    r.added
}

// Lists the line with a number as `list` does, over a lent record, and returns how many bytes were written.
pub fn list_lent(
    line: usize,
    names: &[u8],
    values: &[u8],
    store: &[u8],
    e: &Editor,
    out: &mut [u8],
) -> Result<usize, Refusal>
    ensures { listed result out.new ≡ list_call line (state names.now values.now store.now e.now) out.old }
{
    list(line, names, values, store, *e, out)
}
