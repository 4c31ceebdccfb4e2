// What saved program files weigh (document 02, §13): the columns of the program in a file, as it lies there, and columns added up.
#![tactic(auto)]

ghost use Rattle.std.specs.Prelude.{◌≡◌, ◌≤◌, ◌^◌, Ok, T, length, take};
ghost use Rattle.paper.specs.Bytes.{every};
ghost use Rattle.paper.specs.Names.{names_in};
ghost use Rattle.paper.specs.Store.{lines_in, whole_line?};
ghost use Rattle.paper.specs.Weigh.{weigh as weigh-call, added_up};
ghost use Rattle.list_pieces.specs.Rest.{Sound};
ghost use Rattle.list_weigh.specs.Weights.{nothing, Slight};
ghost use Rattle.file_load.specs.Answers.{opened};
ghost use Rattle.file_weigh.specs.Answers.{columns, columns_in, weighed, lines_weighing, none as no-sums, Sized};

use editor_edit::Editor;
use file_load::HEAD;
use list_alone::DEEPEST;
use list_weigh::Weight;
use names_kinds::{KINDS, list_kinds};
use refusals::Refusal;
use store::heads;

// How many bytes a file may have.
const MOST: usize = 65535;

// The columns of a program: its lines, its names, the bytes that its lines use, and what these weigh.
#[derive(Clone, Copy)]
pub struct Columns {
    pub lines: usize,
    pub names: usize,
    pub used: usize,
    pub weight: Weight,
}

// The columns of nothing.
// Stays in full, and no derived Default: the edit refused_adds makes one of its zeros a one.
pub fn no_columns() -> Columns
    ensures { result ≡ no-sums }
{
    Columns {
        lines: 0,
        names: 0,
        used: 0,
        weight: list_weigh::nothing(),
    }
}

// The columns that weighing a file answered, those of nothing after a refusal.
pub fn columns_of(answer: Result<Columns, Refusal>) -> Columns
    ensures { result ≡ columns_in answer }
{
    match answer {
        Ok(columns) => columns,
        Err(_) => no_columns(),
    }
}

// Two programs' columns added up.
pub fn added(a: Columns, b: Columns) -> Columns
    requires { Sized (2 ^ 46) a × Sized (2 ^ 46) b }
    ensures { columns result ≡ added_up (columns a) (columns b) }
{
    Columns {
        lines: a.lines + b.lines,
        names: a.names + b.names,
        used: a.used + b.used,
        weight: list_weigh::added(a.weight, b.weight),
    }
}

// The weight of whole lines over a sound name table of `size` bytes, if each can be listed. The kinds of the names are listed before, once for all lines.
fn weigh_lines(lines: &[u8], names: &[u8], size: usize) -> Option<Weight>
    requires { Sound names.now size × (size ≤ 65535) × (length lines.now ≤ 65535) × T (every whole_line? (lines_in lines.now)) }
    ensures { (result ≡ lines_weighing nothing (names_in (take size names.now)) (lines_in lines.now)) × Slight (length lines.now) result }
{
    let mut kinds = [0u8; KINDS];
    list_kinds(buffers::front(names, size), &mut kinds);
    let mut frames = [0u8; DEEPEST];
    let mut total = list_weigh::nothing();
    let mut rest = lines;
    // Goes over the rest by hand, as the other walks over a store's lines do: crate `store` has no iterator over them.
    while !rest.is_empty() {
        let (line, after) = rest.split_at(heads::size(rest));
        let own = list_weigh::weigh(line, names, size, &kinds, &mut frames)?;
        total = list_weigh::added(total, own);
        rest = after;
    }
    Some(total)
}

// What the program in a file weighs, whose record was found there: 10, or its columns.
// Cuts the file's parts by the record, as `file_load`, `file_examine` and `file_weigh` each do: no type holds them.
fn weigh_held(file: &[u8], held: Editor) -> Result<Columns, Refusal>
    requires { (opened file.now ≡ Ok held) × (length file.now ≤ 65535) }
    ensures { (weighed result ≡ weigh-call file.now) × Sized 65535 (columns_in result) }
{
    let names_end = HEAD + held.name_bytes;
    let lines_at = names_end + 1 + 8 * held.name_count;
    let lines_end = lines_at + held.used;
    let lines = &file[lines_at..lines_end];
    let names = &file[HEAD..names_end];
    let weight = weigh_lines(lines, names, held.name_bytes).ok_or(Refusal::NotWellFormed)?;
    Ok(Columns {
        lines: held.lines,
        names: held.name_count,
        used: held.used,
        weight,
    })
}

// What a file weighs: 14 for more than 65,535 bytes, 12, 13, 1 or 10, or its columns. Nothing of the file is copied.
pub fn weigh(file: &[u8]) -> Result<Columns, Refusal>
    ensures { (weighed result ≡ weigh-call file.now) × Sized 65535 (columns_in result) }
{
    if MOST < file.len() {
        return Err(Refusal::NoFile);
    }
    let held = file_load::open(file)?;
    weigh_held(file, held)
}
