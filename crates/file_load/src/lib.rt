// The reader of saved program files: what is wrong with a file, where its program lies in it, and the program copied to lent buffers.
#![tactic(auto)]

ghost use Rattle.std.specs.Prelude.{◌≡◌, true, Ok, ◌≤◌, length};
ghost use Rattle.paper.specs.Files.{word_at, never_fall, right_words?, load as load-call};
ghost use Rattle.editor_edit.specs.States.{state};
ghost use Rattle.file_load.specs.Answers.{opened, parted, placed, loaded};
ghost use Rattle.editor_edit.specs.declared.Editor.{Editor};

use buffers::copy;
use editor_edit::Editor;
use refusals::Refusal;
use store::{heads, program_counts, room_of};

// How many bytes the words take.
pub const HEAD: usize = 14;

// How many words follow the first.
const LATER_WORDS: usize = 6;

// A word of a file, counted from 0: two bytes, low byte first, as a line's number is.
pub fn word(file: &[u8], i: usize) -> usize
    requires { i ≤ 6 }
    ensures { (result ≡ word_at file.now i) × (result ≤ 65535) }
{
    heads::number(file.get(2 * i..).unwrap_or(&[]))
}

// Whether no word of a file is below the one before it.
fn words_never_fall(file: &[u8]) -> bool
    ensures { result ≡ never_fall file.now 0 6 }
{
    for i in 0..LATER_WORDS {
        if word(file, i + 1) < word(file, i) {
            return false;
        }
    }
    true
}

// Whether the words of a file are right: they never fall, the block has the length that they say, and a zero byte stands between names and values.
fn words_right(file: &[u8]) -> bool
    requires { 14 ≤ length file.now }
    ensures { result ≡ right_words? file.now }
{
    if !words_never_fall(file) {
        return false;
    }
    let from = word(file, 1);
    let names_end = word(file, 2);
    let block = &file[HEAD..];
    if block.len() != word(file, 6) - from {
        return false;
    }
    if word(file, 3) != names_end + 1 {
        return false;
    }
    block[names_end - from] == 0
}

// The record of the program in a file whose words are right, if its tables are sound.
fn tables(file: &[u8]) -> Result<Editor, Refusal>
    requires { (14 ≤ length file.now) × (right_words? file.now ≡ true) }
    ensures { result ≡ parted file.now }
{
    let name_bytes = word(file, 2) - word(file, 1);
    let value_bytes = word(file, 4) - word(file, 3);
    let names_end = HEAD + name_bytes;
    let lines_at = names_end + 1 + value_bytes;
    let name_count = value_bytes / 8;
    if value_bytes != 8 * name_count {
        return Err(Refusal::Unsound);
    }
    if !names_sound::sound(&file[HEAD..names_end], name_bytes, name_count, value_bytes) {
        return Err(Refusal::Unsound);
    }
    let counts = program_counts(&file[lines_at..]).ok_or(Refusal::Unsound)?;
    let names = Editor {
        name_count,
        name_bytes,
        ..Editor::default()
    };
    Ok(names.with_counts(counts))
}

// The record of the program that a file holds: its names lie after the words, its values after them and a zero byte, and its lines after these. Or why it holds
// none, with 12, 13, 1, in this order.
pub fn open(file: &[u8]) -> Result<Editor, Refusal>
    ensures { result ≡ opened file.now }
{
    if file.len() < HEAD || word(file, 0) != 0 {
        return Err(Refusal::NoProgram);
    }
    if !words_right(file) {
        return Err(Refusal::Damaged);
    }
    tables(file)
}

// Copies the program that a file holds to the fronts of lent buffers, or refuses with 8 where one is too small.
// Cuts the file's parts by the record, as `file_load`, `file_examine` and `file_weigh` each do: no type holds them.
fn place(
    file: &[u8],
    held: Editor,
    names: &mut [u8],
    values: &mut [u8],
    store: &mut [u8],
) -> Result<Editor, Refusal>
    requires { opened file.now ≡ Ok held }
    ensures { (e : Editor) → loaded e result names.new values.new store.new ≡ placed file.now (state names.old values.old store.old e) }
{
    let names_end = HEAD + held.name_bytes;
    let values_at = names_end + 1;
    let value_bytes = 8 * held.name_count;
    let lines_at = values_at + value_bytes;
    let lines_end = lines_at + held.used;
    if names.len() < held.name_bytes || values.len() < value_bytes || room_of(store) < held.used {
        return Err(Refusal::NoRoom);
    }
    copy(names, 0, &file[HEAD..names_end]);
    copy(values, 0, &file[values_at..lines_at]);
    copy(store, 0, &file[lines_at..lines_end]);
    Ok(held)
}

// Reads a file into lent buffers, whatever they held, and returns the record of its program; or refuses it with 12, 13, 1 or 8 and changes nothing. The caller's
// record is then as it was.
// Stays with each buffer lent by itself: the export to C lends them so.
pub fn load(
    file: &[u8],
    names: &mut [u8],
    values: &mut [u8],
    store: &mut [u8],
) -> Result<Editor, Refusal>
    ensures { (e : Editor) → loaded e result names.new values.new store.new ≡ load-call file.now (state names.old values.old store.old e) }
{
    let held = open(file)?;
    place(file, held, names, values, store)
}
