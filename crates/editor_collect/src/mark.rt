// The first pass: each line is tested, and the names that it uses are marked. Nothing that is lent is written.
ghost use Rattle.std.specs.Prelude.{◌≡◌, true, List, ℕ, ◌≤◌, T, length, take};
ghost use Rattle.paper.specs.Bytes.{every};
ghost use Rattle.paper.specs.Line.{lawful_number?};
ghost use Rattle.paper.specs.Names.{names_in};
ghost use Rattle.paper.specs.Errors.{listable?};
ghost use Rattle.paper.specs.Store.{lines_in, whole_line?};
ghost use Rattle.names_kinds.specs.Kinds.{Kinds};
ghost use Rattle.list_pieces.specs.Rest.{Numbered, Sound};
ghost use Rattle.list_check.specs.Walks.{Listed};
ghost use Rattle.editor_collect.specs.Marks.{marked_line, marked_lines};

use list_alone::{DEEPEST, well_formed_over};
use names_kinds::{KINDS, list_kinds};
use store::heads;

// Whether a whole line can be listed over names of which the kinds are listed; if so, the variables of a well-formed line are marked. What `frames` holds does not
// matter.
fn mark_line(line: &[u8], kinds: &[u8], marks: &mut [u8], frames: &mut [u8]) -> bool
    requires { T (whole_line? line.now) × Listed kinds.now × (2056 ≤ length frames.old) }
    ensures { (ns : List (List ℕ)) → Numbered ns → Kinds ns kinds.now → (result ≡ listable? lawful_number? ns line.now) × (result ≡ true → marks.new ≡ marked_line ns line.now marks.old) }
{
    if list_error::is_error_line(line) {
        return true;
    }
    if !well_formed_over(line, kinds, frames) {
        return false;
    }
    list_mark::mark_line(line, marks);
    true
}

// Whether all of some whole lines can be listed; if so, their variables are marked. The kinds of the names are listed before, once for all lines.
pub fn mark_lines(lines: &[u8], names: &[u8], size: usize, marks: &mut [u8]) -> bool
    requires { T (every whole_line? (lines_in lines.now)) × Sound names.now size }
    ensures { (result ≡ every (listable? lawful_number? (names_in (take size names.now))) (lines_in lines.now)) × (result ≡ true → marks.new ≡ marked_lines (names_in (take size names.now)) (lines_in lines.now) marks.old) }
{
    let mut kinds = [0u8; KINDS];
    list_kinds(buffers::front(names, size), &mut kinds);
    let mut frames = [0u8; DEEPEST];
    let mut rest = lines;
    // Goes over the rest by hand, as the other walks over a store's lines do: crate `store` has no iterator over them.
    while !rest.is_empty() {
        let (line, after) = rest.split_at(heads::size(rest));
        if !mark_line(line, &kinds, marks, &mut frames) {
            return false;
        }
        rest = after;
    }
    true
}
