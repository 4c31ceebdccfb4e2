// The writer of saved program files: seven words, and then the names with a zero byte, the values, the stored lines and the current line.
#![tactic(auto)]

ghost use Rattle.std.specs.Prelude.{◌≡◌, [], ◌+◌, ◌*◌, ◌≤◌, length};
ghost use Rattle.std.proofs.lemmas.List.Edits.{sets};
ghost use Rattle.paper.specs.Files.{word_bytes, words_bytes, saved_words, saved_block, save as save-call};
ghost use Rattle.editor_edit.specs.States.{state};
ghost use Rattle.file_save.specs.Answers.{saved, Fitting};

use buffers::{copy, front, put};
use editor_edit::Editor;
use editor_sound::sound;
use refusals::Refusal;

// How many bytes the words take.
const HEAD: usize = 14;

// Where the words say that the names lie.
const NAMES: usize = 256;

// How many bytes of a file are neither names, values nor stored lines: the words, the zero byte and the current line.
const OTHERS: usize = 21;

// The most bytes that names, values and stored lines may have in all: with them the last word is 65,535.
const MOST: usize = 65272;

// Puts a number to a place as two bytes, low byte first.
fn put_word(out: &mut [u8], at: usize, n: usize)
    requires { (at ≤ 12) × (n ≤ 65535) }
    ensures { out.new ≡ sets out.old at (word_bytes n) }
{
    copy(out, at, &(n as u16).to_le_bytes());
}

// Puts the words of a program's file to the front.
fn put_words(out: &mut [u8], e: Editor)
    requires { e.name_bytes + 8 * e.name_count + e.used ≤ 65272 }
    ensures { out.new ≡ sets out.old 0 (words_bytes (saved_words (state [] [] [] e))) }
{
    let names_end = NAMES + e.name_bytes;
    let statements = names_end + 1 + 8 * e.name_count;
    let current = statements + e.used;
    put_word(out, 0, 0);
    put_word(out, 2, NAMES);
    put_word(out, 4, names_end);
    put_word(out, 6, names_end + 1);
    put_word(out, 8, statements);
    put_word(out, 10, current);
    put_word(out, 12, current + 6);
}

// Puts the block of a program's file after the words. The current line, which is the last, is END alone with number 32768.
fn put_block(names: &[u8], values: &[u8], store: &[u8], e: Editor, out: &mut [u8])
    requires { Fitting names.now values.now store.now e }
    ensures { out.new ≡ sets out.old 14 (saved_block (state names.now values.now store.now e)) }
{
    let end_line = [0u8, 128, 6, 6, 21, 22];
    let name_bytes = e.name_bytes;
    let value_bytes = 8 * e.name_count;
    let used = e.used;
    let names_end = HEAD + name_bytes;
    let values_at = names_end + 1;
    let lines_at = values_at + value_bytes;
    copy(out, HEAD, front(names, name_bytes));
    put(out, names_end, 0);
    copy(out, values_at, front(values, value_bytes));
    copy(out, lines_at, front(store, used));
    copy(out, lines_at + used, &end_line);
}

// Writes the file of a program to the front of a lent buffer and returns how many bytes it has, or refuses with 1 or 8 and writes nothing.
// Stays with each buffer lent by itself: the export to C lends them so.
pub fn save(
    names: &[u8],
    values: &[u8],
    store: &[u8],
    e: Editor,
    out: &mut [u8],
) -> Result<usize, Refusal>
    ensures { saved result out.new ≡ save-call (state names.now values.now store.now e) out.old }
{
    if !sound(names, values, store, e) {
        return Err(Refusal::Unsound);
    }
    let size = e.name_bytes.saturating_add(8 * e.name_count + e.used);
    if MOST < size || out.len() < size + OTHERS {
        return Err(Refusal::NoRoom);
    }
    put_words(out, e);
    put_block(names, values, store, e, out);
    Ok(size + OTHERS)
}
