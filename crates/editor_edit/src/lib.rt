// The editor's record and what an edit answers, with the words that the calls share: an empty record, what it keeps of the store, a refusal.
#![tactic(auto)]

ghost use Rattle.std.specs.Prelude.{◌≡◌};
ghost use Rattle.editor_edit.specs.States.{empty_record, counts_in, counting, refusing, no_place};

use refusals::{Refusal, RefusedItem};
use store::Counts;

// Stays beside names, values and store, and no struct of all four with an invariant: the invariant would have to hold between the write to the store and
// that to the record; and of three lent slices in a struct a contract says `lent.exit.1.0.now` where it now says `values.new`.
// The editor's record: the bytes of the store that are used, how many lines they are and the greatest number of these, 0 if there is none, how many
// names there are, and how many bytes they have.
#[derive(Clone, Copy, Default)]
pub struct Editor {
    pub used: usize,
    pub lines: usize,
    pub greatest: usize,
    pub name_count: usize,
    pub name_bytes: usize,
}

// What entering a text answers: how many names were added, or its refusal; and the record afterwards. That of a wrong line that is kept is a refusal too,
// with a record that counts its line.
#[derive(Clone, Copy)]
pub struct Entered {
    pub added: Result<usize, RefusedItem>,
    pub editor: Editor,
}

// The record of empty tables and an empty store.
pub fn empty() -> Editor
    ensures { result ≡ empty_record }
{
    Editor::default()
}

impl From<Editor> for Counts {
    // What a record keeps of the store.
    fn from(e: Editor) -> Counts
        ensures { result ≡ counts_in e }
    {
        Counts {
            used: e.used,
            lines: e.lines,
            greatest: e.greatest,
        }
    }
}

impl Editor {
    // A record with other counts of the store.
    pub fn with_counts(self, after: Counts) -> Editor
        ensures { result ≡ counting self after }
    {
        Editor {
            used: after.used,
            lines: after.lines,
            greatest: after.greatest,
            ..self
        }
    }
}

// A refusal of an item: nothing is added, and the record is as it was.
pub fn refused_at(item: RefusedItem, e: Editor) -> Entered
    ensures { result ≡ refusing item e }
{
    Entered {
        added: Err(item),
        editor: e,
    }
}

// A refusal that has no place.
pub fn refused(refusal: Refusal, e: Editor) -> Entered
    ensures { result ≡ refusing (no_place refusal) e }
{
    refused_at(
        RefusedItem {
            refusal,
            place: 0,
            end: 0,
        },
        e,
    )
}
