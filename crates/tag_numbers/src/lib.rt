// Numbers read from the slices that C lends, and written there.
#![tactic(auto)]

ghost use Rattle.std.specs.Prelude.{◌≡◌, [], ◌∷◌, MatchResult, get_or, set};
ghost use Rattle.std.proofs.lemmas.List.Edits.{sets};
ghost use Rattle.editor_edit.specs.States.{number_in, place_in, added_in};
ghost use Rattle.editor_list.specs.Answers.{listing_number, written_in};
ghost use Rattle.editor_batch.specs.Answers.{first_in};
ghost use Rattle.editor_examine.specs.Verdicts.{verdict};
ghost use Rattle.tag_terms.specs.Lent.{editor_of, Examines, Holds, Keeps};

use editor_batch::{Batched, FirstRefusal};
use editor_edit::{Editor, Entered};
use editor_examine::Flaw;
use refusals::Refusal;

// The number at a place, 0 past the end.
// Stays beside byte_at of buffers: a generic one is no plainer, since this is a chain of the library's.
fn number_at(s: &[usize], at: usize) -> usize
    ensures { result ≡ get_or s.now at 0 }
{
    s.get(at).copied().unwrap_or(0)
}

// Puts a number at a place, and nothing past the end.
// Stays beside put of buffers, as write_numbers does beside its copy; get_mut's contract does not say what the slice holds afterwards.
pub fn put(out: &mut [usize], at: usize, n: usize)
    ensures { out.new ≡ set out.old at n }
{
    if at < out.len() {
        out[at] = n;
    }
}

// Writes numbers from the front on, as many as there is room for.
// Stays beside the copy of bytes in buffers: a generic one is no plainer, since this is two calls of the library.
pub fn write_numbers(out: &mut [usize], numbers: &[usize])
    ensures { out.new ≡ sets out.old 0 numbers.now }
{
    let size = numbers.len().min(out.len());
    out[..size].copy_from_slice(&numbers[..size]);
}

// The counts of a record, 0 for each that it lacks.
pub fn read_record(record: &[usize]) -> Editor
    ensures { result ≡ editor_of «record».now }
{
    Editor {
        name_bytes: number_at(record, 0),
        name_count: number_at(record, 1),
        used: number_at(record, 2),
        lines: number_at(record, 3),
        greatest: number_at(record, 4),
    }
}

// Writes the counts to a record, as many as it has room for.
pub fn write_record(record: &mut [usize], e: Editor)
    ensures { «record».new ≡ sets «record».old 0 (e.name_bytes ∷ e.name_count ∷ e.used ∷ e.lines ∷ e.greatest ∷ []) }
{
    write_numbers(
        record,
        &[e.name_bytes, e.name_count, e.used, e.lines, e.greatest],
    );
}

// Writes what entering a text answered, as many numbers as there is room for.
pub fn write_entered(answer: &mut [usize], r: Entered)
    ensures { answer.new ≡ sets answer.old 0 (number_in r.added ∷ (place_in r.added).start ∷ (place_in r.added).end ∷ added_in r.added ∷ r.editor.used ∷ []) }
{
    let used = r.editor.used;
    let (number, place, end, added) = match r.added {
        Ok(added) => (0, 0, 0, added),
        Err(item) => (item.refusal.number() as usize, item.place, item.end, 0),
    };
    write_numbers(answer, &[number, place, end, added, used]);
}

// Writes what a call that writes to a buffer answered, a listing or a file, as many numbers as there is room for.
pub fn write_written(answer: &mut [usize], r: Result<usize, Refusal>)
    ensures { answer.new ≡ sets answer.old 0 (listing_number r ∷ written_in r ∷ []) }
{
    let (number, written) = match r {
        Ok(written) => (0, written),
        Err(refusal) => (refusal.number() as usize, 0),
    };
    write_numbers(answer, &[number, written]);
}

// Writes what listing a line answered, as many numbers as there is room for.
pub fn write_listed(answer: &mut [usize], r: Result<usize, Refusal>)
    ensures { answer.new ≡ sets answer.old 0 (listing_number r ∷ written_in r ∷ []) }
{
    write_written(answer, r);
}

// Writes what writing a file answered, as many numbers as there is room for.
pub fn write_saved(answer: &mut [usize], file: Result<usize, Refusal>)
    ensures { answer.new ≡ sets answer.old 0 (listing_number file ∷ written_in file ∷ []) }
{
    write_written(answer, file);
}

// Writes what entering many lines answered, as many numbers as there is room for.
pub fn write_batched(answer: &mut [usize], r: Batched)
    ensures { answer.new ≡ sets answer.old 0 (r.taken ∷ r.refused ∷ (first_in r.first).number ∷ (first_in r.first).place.start ∷ (first_in r.first).place.end ∷ (first_in r.first).line ∷ []) }
{
    let (number, place, end, line) = match r.first {
        None => (0, 0, 0, 0),
        Some(FirstRefusal { line, item }) => (
            item.refusal.number() as usize,
            item.place,
            item.end,
            line,
        ),
    };
    write_numbers(answer, &[r.taken, r.refused, number, place, end, line]);
}

// Writes what examining a program answered, as many numbers as there is room for.
pub fn write_verdict(answer: &mut [usize], v: Result<(), Flaw>)
    ensures { Examines (verdict v) answer.old answer.new }
{
    write_numbers(
        answer,
        &[editor_examine::number_of(v), editor_examine::line_of(v)],
    );
}

// Writes what a call that makes a record answered, and that record; where it is refused the lent record stays as it was.
pub fn write_held(record: &mut [usize], answer: &mut [usize], r: Result<Editor, Refusal>)
    ensures { MatchResult r (Holds «record».old «record».new answer.old answer.new) (Keeps «record».old «record».new answer.old answer.new) }
{
    let number = match r {
        Ok(held) => {
            write_record(record, held);
            0
        }
        Err(refusal) => refusal.number() as usize,
    };
    put(answer, 0, number);
}
