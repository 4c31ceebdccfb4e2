// A program from another tokenizer: its tables and every line examined before a tag takes it. Nothing is written.
#![tactic(auto)]

ghost use Rattle.std.specs.Prelude.{◌≡◌, Err, take};
ghost use Rattle.paper.specs.Bytes.{pick};
ghost use Rattle.paper.specs.Line.{line_number};
ghost use Rattle.paper.specs.Names.{names_in};
ghost use Rattle.paper.specs.Store.{lines_in};
ghost use Rattle.paper.specs.Examine.{unsound_store, bad_line, examine as examine-call, verdict_number, verdict_line};
ghost use Rattle.store.specs.Walks.{sound_lines_from};
ghost use Rattle.list_pieces.specs.Rest.{Sound};
ghost use Rattle.editor_examine.specs.Verdicts.{verdict, lines_verdict};

use list_alone::{DEEPEST, well_formed_over};
use names_kinds::{KINDS, list_kinds};
use store::{GREATEST_NUMBER, heads};

// Why a program is not taken: the first that is unsound of names, values and store; or the first line that is not well-formed, by its number.
#[derive(Clone, Copy)]
pub enum Flaw {
    UnsoundNames,
    UnsoundValues,
    UnsoundStore,
    BadLine(usize),
}

// The answer's first number: 0 yes, 1 names, 2 values, 3 store, 4 a line.
#[tactic(auto, unfolding(crate::specs::Verdicts::verdict, paper::specs::Examine::verdict_number))]
pub fn number_of(v: Result<(), Flaw>) -> usize
    ensures { result ≡ verdict_number (verdict v) }
{
    match v {
        Ok(()) => 0,
        Err(Flaw::UnsoundNames) => 1,
        Err(Flaw::UnsoundValues) => 2,
        Err(Flaw::UnsoundStore) => 3,
        Err(Flaw::BadLine(_)) => 4,
    }
}

// The answer's second number: that of the bad line, 0 where there is none.
#[tactic(auto, unfolding(crate::specs::Verdicts::verdict, paper::specs::Examine::verdict_line))]
pub fn line_of(v: Result<(), Flaw>) -> usize
    ensures { result ≡ verdict_line (verdict v) }
{
    match v {
        Err(Flaw::BadLine(n)) => n,
        _ => 0,
    }
}

// What is wrong where the first line of some bytes is bad, and those before it are good: that line, if all lines from it on are sound too.
#[tactic(auto, unfolding(crate::specs::Verdicts::verdict))]
fn bad_from(rest: &[u8], least: usize) -> Flaw
    ensures { verdict (Err result) ≡ pick (sound_lines_from least (lines_in rest.now)) (bad_line (line_number rest.now)) unsound_store }
{
    if store::sound_from(rest, least) {
        Flaw::BadLine(heads::number(rest))
    } else {
        Flaw::UnsoundStore
    }
}

// Examines the lines of a store over a sound name table in one walk: each is tested by the lister's test, up to the first that is bad.
// The kinds of the names are listed before, once for all lines.
fn examine_lines(lines: &[u8], names: &[u8], name_bytes: usize) -> Result<(), Flaw>
    requires { Sound names.now name_bytes }
    ensures { verdict result ≡ lines_verdict (names_in (take name_bytes names.now)) 0 lines.now }
{
    let mut kinds = [0u8; KINDS];
    list_kinds(buffers::front(names, name_bytes), &mut kinds);
    let mut frames = [0u8; DEEPEST];
    let mut rest = lines;
    let mut least: usize = 0;
    // Goes over the rest by hand, as the other walks over a store's lines do: crate `store` has no iterator over them.
    while !rest.is_empty() {
        let size = store::passing(rest, least, GREATEST_NUMBER + 1).ok_or(Flaw::UnsoundStore)?;
        let (line, after) = rest.split_at(size);
        if !well_formed_over(line, &kinds, &mut frames) {
            return Err(bad_from(rest, least));
        }
        least = heads::number(rest) + 1;
        rest = after;
    }
    Ok(())
}

// Examines a program: names, room for their values, and store, in this order, and then every line.
// Stays with each table and its size lent by itself: the export to C lends them so.
pub fn examine(
    names: &[u8],
    name_bytes: usize,
    name_count: usize,
    values: &[u8],
    store: &[u8],
    used: usize,
) -> Result<(), Flaw>
    ensures { verdict result ≡ examine-call names.now name_bytes name_count values.now store.now used }
{
    if !names_sound::sound_table(names, name_bytes, name_count) {
        return Err(Flaw::UnsoundNames);
    }
    if !names_sound::values_fit(name_count, values.len()) {
        return Err(Flaw::UnsoundValues);
    }
    if store::room_of(store) < used {
        return Err(Flaw::UnsoundStore);
    }
    examine_lines(&store[..used], names, name_bytes)
}
