// A whole listing at once: a text of many lines parted by 9B, entered line by line over tables that are tested once.
#![tactic(auto)]

ghost use Rattle.std.specs.Prelude.{◌≡◌, List, ℕ, ◌+◌, ◌<◌, drop, length};
ghost use Rattle.std.specs.Iterator.{YieldsFirstRef, item_count};
ghost use Rattle.paper.specs.Calls.{sound_state, enter_with};
ghost use Rattle.paper.specs.Batch.{text_lines, with_answer, batch as batch-call};
ghost use Rattle.requested.specs.RequestTerms.{all_unsound};
ghost use Rattle.editor_edit.specs.States.{state, entered};
ghost use Rattle.editor_batch.specs.Answers.{batched, nothing_entered};
ghost use Rattle.editor_batch.specs.Lines.{coming};

use buffers::{Run, run_end};
use editor_edit::{Editor, Entered, refused};
use refusals::{Refusal, RefusedItem};

// The first refusal among lines: of which line, counted from 1, and of which item of it.
#[derive(Clone, Copy)]
pub struct FirstRefusal {
    pub line: usize,
    pub item: RefusedItem,
}

// What entering many lines answers: how many were taken and refused, the first refusal if there is one, and the record afterwards.
#[derive(Clone, Copy)]
pub struct Batched {
    pub taken: usize,
    pub refused: usize,
    pub first: Option<FirstRefusal>,
    pub editor: Editor,
}

// The answer before any line is entered.
fn no_lines(e: Editor) -> Batched
    ensures { result ≡ nothing_entered e }
{
    Batched {
        taken: 0,
        refused: 0,
        first: None,
        editor: e,
    }
}

// The answer with that to one line more.
#[tactic(auto, using(crate::proofs::AnswerLaws::one_taken, crate::proofs::AnswerLaws::first_refused, crate::proofs::AnswerLaws::also_refused))]
fn with_answer(b: Batched, e: Entered) -> Batched
    requires { b.taken + b.refused < 0xffffffffffffffff }
    ensures { (n v s n' v' s' : List ℕ) → batched result n v s ≡ with_answer (batched b n' v' s') (entered e n v s) }
{
    match e.added {
        Ok(_) => Batched {
            taken: b.taken + 1,
            editor: e.editor,
            ..b
        },
        Err(item) => {
            let line = b.taken + b.refused + 1;
            let this = Some(FirstRefusal { line, item });
            Batched {
                refused: b.refused + 1,
                first: if b.refused == 0 { this } else { b.first },
                editor: e.editor,
                ..b
            }
        }
    }
}

// Enters a line over tables, store and record that are known to be sound or not.
fn enter_tested(
    sound: bool,
    line: &[u8],
    keep: bool,
    names: &mut [u8],
    values: &mut [u8],
    store: &mut [u8],
    e: Editor,
) -> Entered
    requires { sound ≡ sound_state (state names.old values.old store.old e) }
    ensures { entered result names.new values.new store.new ≡ enter_with keep line.now (state names.old values.old store.old e) }
{
    if sound {
        editor::enter_sound(line, keep, names, values, store, e)
    } else {
        refused(Refusal::Unsound, e)
    }
}

// What stands past the 9B that ends a line, if there is one.
fn past_end(end: &[u8]) -> &[u8]
    ensures { result.now ≡ drop 1 end.now }
{
    end.get(1..).unwrap_or(end)
}

// The lines of a text, one after another: each 9B ends one, and bytes after the last 9B are a line too.
#[derive(Clone, Copy, Drop)]
struct TextLines<'a> {
    rest: &'a [u8],
}

impl<'a> Iterator for TextLines<'a> {
    type Item = &'a [u8];

    ghost next_gives = { YieldsFirstRef coming };

    ghost remaining = { item_count coming };

    fn next(&mut self) -> Option<&'a [u8]> {
        if self.rest.is_empty() {
            return None;
        }
        let (line, end) = self.rest.split_at(run_end(self.rest, 0, Run::RawBytes));
        self.rest = past_end(end);
        Some(line)
    }
}

// Enters the lines of a text one after another, as single calls would, going on after a refusal. Tables, store and record are tested once: what a line leaves
// is sound again. `keep` says whether wrong lines are kept.
// Stays with each buffer lent by itself: the export to C lends them so.
pub fn batch(
    text: &[u8],
    keep: bool,
    names: &mut [u8],
    values: &mut [u8],
    store: &mut [u8],
    e: Editor,
) -> Batched
    ensures { batched result names.new values.new store.new ≡ batch-call keep text.now (state names.old values.old store.old e) }
{
    let sound = editor_sound::sound(names, values, store, e);
    let mut b = no_lines(e);
    for line in (TextLines { rest: text }) {
        let answer = enter_tested(sound, line, keep, names, values, store, b.editor);
        b = with_answer(b, answer);
    }
    b
}

// The answer where no record was lent that tables and store could be tested by: every line of a text is refused with 1, and the record is as it was.
pub fn refuse_all(text: &[u8], e: Editor) -> Batched
    ensures { (n v s : List ℕ) → batched result n v s ≡ all_unsound (length (text_lines text.now)) (state n v s e) }
{
    let unsound = Editor {
        used: 1,
        ..editor_edit::empty()
    };
    let r = batch(text, false, &mut [], &mut [], &mut [], unsound);
    Batched { editor: e, ..r }
}
