// The calls over the counts of a lent record: each refuses a record that lacks one.
#![tactic(auto)]

ghost use Rattle.std.specs.Prelude.{◌≡◌, ◌≤◌, ◌<◌, length, MatchResult};
ghost use Rattle.editor_edit.specs.States.{typed_outcome};
ghost use Rattle.editor_list.specs.Answers.{listed};
ghost use Rattle.editor_batch.specs.Answers.{batched};
ghost use Rattle.editor_collect.specs.Answers.{outcome};
ghost use Rattle.file_save.specs.Answers.{saved};
ghost use Rattle.file_load.specs.Answers.{loaded};
ghost use Rattle.refusals.specs.declared.Refusal.TheVariants.{Unsound};
ghost use Rattle.tag_terms.specs.Lent.{editor_of, enter_by_counts, list_by_counts, batch_by_counts, save_by_counts, load_by_counts, collect_by_counts};

use editor_batch::Batched;
use editor_edit::{Editor, Entered, refused};
use refusals::Refusal;
use tag_numbers::read_record;

// How many counts a record has.
const COUNTS: usize = 5;

// The counts of a record, or 1 where it lacks one.
fn whole_record(record: &[usize]) -> Result<Editor, Refusal>
    ensures { MatchResult result (λ e. (5 ≤ length «record».now) × (e ≡ editor_of «record».now)) (λ k. (length «record».now < 5) × (k ≡ Unsound)) }
{
    if record.len() < COUNTS {
        Err(Refusal::Unsound)
    } else {
        Ok(read_record(record))
    }
}

// Enters a text, or refuses it with 1 where the record lacks a count.
#[tactic(auto, unfolding(paper::specs::Direct::same_buffer, paper::specs::Calls::refusal))]
pub fn enter_by_counts(
    text: &[u8],
    names: &mut [u8],
    values: &mut [u8],
    store: &mut [u8],
    line: &mut [u8],
    keep: bool,
    record: &[usize],
) -> Entered
    ensures { typed_outcome result names.new values.new store.new line.new ≡ enter_by_counts keep text.now names.old values.old store.old line.old «record».now }
{
    match whole_record(record) {
        Ok(e) => editor::enter(text, keep, names, values, store, line, e),
        Err(refusal) => refused(refusal, read_record(record)),
    }
}

// Lists a line, or refuses with 1 where the record lacks a count.
#[tactic(auto, unfolding(paper::specs::Calls::not_listed))]
pub fn list_by_counts(
    line: usize,
    names: &[u8],
    values: &[u8],
    store: &[u8],
    record: &[usize],
    out: &mut [u8],
) -> Result<usize, Refusal>
    ensures { listed result out.new ≡ list_by_counts line names.now values.now store.now «record».now out.old }
{
    let e = whole_record(record)?;
    editor::list(line, names, values, store, e, out)
}

// Enters the lines of a text, or refuses each with 1 where the record lacks a count.
pub fn batch_by_counts(
    text: &[u8],
    names: &mut [u8],
    values: &mut [u8],
    store: &mut [u8],
    keep: bool,
    record: &[usize],
) -> Batched
    ensures { batched result names.new values.new store.new ≡ batch_by_counts keep text.now names.old values.old store.old «record».now }
{
    match whole_record(record) {
        Ok(e) => editor_batch::batch(text, keep, names, values, store, e),
        Err(_) => editor_batch::refuse_all(text, read_record(record)),
    }
}

// Writes the file of a program, or refuses with 1 where the record lacks a count.
#[tactic(auto, unfolding(paper::specs::Files::not_saved))]
pub fn save_by_counts(
    names: &[u8],
    values: &[u8],
    store: &[u8],
    record: &[usize],
    out: &mut [u8],
) -> Result<usize, Refusal>
    ensures { saved result out.new ≡ save_by_counts names.now values.now store.now «record».now out.old }
{
    let counts = whole_record(record)?;
    file_save::save(names, values, store, counts, out)
}

// Reads a file and returns the record of its program, or refuses it with 1 where the lent record lacks a count.
#[tactic(auto, unfolding(paper::specs::Files::not_loaded))]
pub fn load_by_counts(
    file: &[u8],
    names: &mut [u8],
    values: &mut [u8],
    store: &mut [u8],
    record: &[usize],
) -> Result<Editor, Refusal>
    ensures { loaded (editor_of «record».now) result names.new values.new store.new ≡ load_by_counts file.now names.old values.old store.old «record».now }
{
    whole_record(record)?;
    file_load::load(file, names, values, store)
}

// Takes back the names that no line uses and returns the record of what is left, or refuses with 1 where the lent record lacks a count.
pub fn collect_by_counts(
    names: &mut [u8],
    values: &mut [u8],
    store: &mut [u8],
    record: &[usize],
) -> Result<Editor, Refusal>
    ensures { outcome (editor_of «record».now) result names.new values.new store.new ≡ collect_by_counts names.old values.old store.old «record».now }
{
    let before = whole_record(record)?;
    editor_collect::collect(names, values, store, before)
}
