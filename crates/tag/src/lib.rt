// The calls for programs in C, over numbers and lent slices, as include/virgontey.h declares them.
#![tactic(auto)]

ghost use Rattle.paper.specs.Direct.{show};
ghost use Rattle.paper.specs.Examine.{examine};
ghost use Rattle.tag_terms.specs.Lent.{enter_by_counts, list_by_counts, batch_by_counts, save_by_counts, load_by_counts, collect_by_counts, Leaves, LeavesAll, Lists, Examines, Saves, Loads, Collects};

use tag_counted::{
    batch_by_counts, collect_by_counts, enter_by_counts, list_by_counts, load_by_counts,
    save_by_counts,
};
use tag_numbers::{
    write_batched, write_entered, write_held, write_listed, write_record, write_saved,
    write_verdict,
};

// Enters a text, and writes the answer and the record's counts. `keep` says whether a wrong line is kept.
#[unsafe(no_mangle)]
pub extern "C" fn virgontey_enter(
    text: &[u8],
    names: &mut [u8],
    values: &mut [u8],
    store: &mut [u8],
    line: &mut [u8],
    keep: bool,
    record: &mut [usize],
    answer: &mut [usize],
)
    ensures { Leaves (enter_by_counts keep text.now names.old values.old store.old line.old «record».old) «record».old answer.old names.new values.new store.new line.new «record».new answer.new }
{
    let r = enter_by_counts(text, names, values, store, line, keep, record);
    write_record(record, r.editor);
    write_entered(answer, r);
}

// Lists a line, and writes the answer.
#[unsafe(no_mangle)]
pub extern "C" fn virgontey_list(
    line: usize,
    names: &[u8],
    values: &[u8],
    store: &[u8],
    record: &[usize],
    out: &mut [u8],
    answer: &mut [usize],
)
    ensures { Lists (list_by_counts line names.now values.now store.now «record».now out.old) answer.old out.new answer.new }
{
    let r = list_by_counts(line, names, values, store, record, out);
    write_listed(answer, r);
}

// Lists the line in a line buffer, and writes the answer.
#[unsafe(no_mangle)]
pub extern "C" fn virgontey_show(
    line: &[u8],
    names: &[u8],
    name_bytes: usize,
    name_count: usize,
    values: &[u8],
    out: &mut [u8],
    answer: &mut [usize],
)
    ensures { Lists (show line.now names.now name_bytes name_count values.now out.old) answer.old out.new answer.new }
{
    let r = editor::show(line, names, name_bytes, name_count, values, out);
    write_listed(answer, r);
}

// Enters the lines of a text, and writes the answer and the record's counts. `keep` says whether wrong lines are kept.
#[unsafe(no_mangle)]
pub extern "C" fn virgontey_batch(
    text: &[u8],
    names: &mut [u8],
    values: &mut [u8],
    store: &mut [u8],
    keep: bool,
    record: &mut [usize],
    answer: &mut [usize],
)
    ensures { LeavesAll (batch_by_counts keep text.now names.old values.old store.old «record».old) «record».old answer.old names.new values.new store.new «record».new answer.new }
{
    let r = batch_by_counts(text, names, values, store, keep, record);
    write_record(record, r.editor);
    write_batched(answer, r);
}

// Examines a program, and writes the answer.
#[unsafe(no_mangle)]
pub extern "C" fn virgontey_examine(
    names: &[u8],
    name_bytes: usize,
    name_count: usize,
    values: &[u8],
    store: &[u8],
    used: usize,
    answer: &mut [usize],
)
    ensures { Examines (examine names.now name_bytes name_count values.now store.now used) answer.old answer.new }
{
    let v = editor_examine::examine(names, name_bytes, name_count, values, store, used);
    write_verdict(answer, v);
}

// Writes the file of a program, and writes the answer.
#[unsafe(no_mangle)]
pub extern "C" fn virgontey_save(
    names: &[u8],
    values: &[u8],
    store: &[u8],
    record: &[usize],
    out: &mut [u8],
    answer: &mut [usize],
)
    ensures { Saves (save_by_counts names.now values.now store.now «record».now out.old) answer.old out.new answer.new }
{
    let r = save_by_counts(names, values, store, record, out);
    write_saved(answer, r);
}

// Reads a file, and writes the answer and the record's counts.
#[unsafe(no_mangle)]
pub extern "C" fn virgontey_load(
    file: &[u8],
    names: &mut [u8],
    values: &mut [u8],
    store: &mut [u8],
    record: &mut [usize],
    answer: &mut [usize],
)
    ensures { Loads (load_by_counts file.now names.old values.old store.old «record».old) «record».old answer.old names.new values.new store.new «record».new answer.new }
{
    let r = load_by_counts(file, names, values, store, record);
    write_held(record, answer, r);
}

// Takes back the names that no line uses, and writes the answer and the record's counts.
#[unsafe(no_mangle)]
pub extern "C" fn virgontey_collect(
    names: &mut [u8],
    values: &mut [u8],
    store: &mut [u8],
    record: &mut [usize],
    answer: &mut [usize],
)
    ensures { Collects (collect_by_counts names.old values.old store.old «record».old) «record».old answer.old names.new values.new store.new «record».new answer.new }
{
    let r = collect_by_counts(names, values, store, record);
    write_held(record, answer, r);
}
