// A saved program file examined before a tag takes its program: what is wrong with the file; or which of its tables is unsound; or which line is bad. No byte is copied.
#![tactic(auto)]

ghost use Rattle.std.specs.Prelude.{◌≡◌, ◌≤◌, Ok, Err, length};
ghost use Rattle.paper.specs.Files.{parts_of};
ghost use Rattle.editor_examine.specs.Verdicts.{verdict};
ghost use Rattle.file_load.specs.Answers.{opened};
ghost use Rattle.refusals.specs.declared.Refusal.TheVariants.{Unsound};
ghost use Rattle.file_examine.specs.Answers.{name_ends, unsound_part, examined_parts, examine_file, examined};

use editor_edit::Editor;
use editor_examine::Flaw;
use file_load::{HEAD, word};
use refusals::Refusal;

// Why a file's program is not taken: the file is refused, with 12 or 13; or the program has a flaw.
#[derive(Clone, Copy)]
pub enum Fault {
    NotRead(Refusal),
    Flawed(Flaw),
}

// How many bytes of a name table are the last of a name.
fn ends(names: &[u8]) -> usize
    ensures { (result ≡ name_ends names.now) × (result ≤ length names.now) }
{
    names.iter().filter(|b| 128 <= **b).count()
}

// Which table of a file that is refused with 1 is the first unsound one.
fn unsound(file: &[u8]) -> Flaw
    requires { opened file.now ≡ Err Unsound }
    ensures { verdict (Err result) ≡ unsound_part (parts_of file.now) }
{
    let name_bytes = word(file, 2) - word(file, 1);
    let value_bytes = word(file, 4) - word(file, 3);
    let names_end = HEAD + name_bytes;
    let names = &file[HEAD..names_end];
    let count = ends(names);
    if !names_sound::sound_table(names, name_bytes, count) {
        return Flaw::UnsoundNames;
    }
    if value_bytes != 8 * count {
        return Flaw::UnsoundValues;
    }
    Flaw::UnsoundStore
}

// What examining the program that a file holds answers.
// Cuts the file's parts by the record, as `file_load`, `file_examine` and `file_weigh` each do: no type holds them.
fn program(file: &[u8], held: Editor) -> Result<(), Flaw>
    requires { opened file.now ≡ Ok held }
    ensures { verdict result ≡ examined_parts (parts_of file.now) }
{
    let names_end = HEAD + held.name_bytes;
    let values_at = names_end + 1;
    let lines_at = values_at + 8 * held.name_count;
    let lines_end = lines_at + held.used;
    editor_examine::examine(
        &file[HEAD..names_end],
        held.name_bytes,
        held.name_count,
        &file[values_at..lines_at],
        &file[lines_at..lines_end],
        held.used,
    )
}

// Examines a file: 12, 13, the first unsound one of names, values and store, or what examining its program answers.
pub fn examine(file: &[u8]) -> Result<(), Fault>
    ensures { examined result ≡ examine_file file.now }
{
    match file_load::open(file) {
        Ok(held) => program(file, held).map_err(Fault::Flawed),
        Err(Refusal::Unsound) => Err(Fault::Flawed(unsound(file))),
        Err(refusal) => Err(Fault::NotRead(refusal)),
    }
}
