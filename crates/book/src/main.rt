// The program of the Source Book's examples: reads rows of a source reference, a tab and a line that begins with its number, and prints what became
// of each line. Rows that follow each other with the same reference are one program; another reference begins one with everything empty, in the
// desk program's rooms.
//
// P       a source reference, where a program begins
// E       a line that is entered, and its answer's number, place and that place's end
// B       after an accepted line that is then stored: its bytes
// L       after each B: the listing of that line
// N       the used bytes of the name table, where a program ends
// bad     a row without a tab, or one longer than any example
#![tactic(auto)]

use buffers::{Run, copy, front, run_end};
use console::{AT_ONCE, Ahead, Hex, field_end, next_line, number_in, whole};
use editor_edit::{Editor, empty};
use refusals::{Refusal, RefusedItem};
use std::io::BufRead;
use store::Counts;

// The longest row that is kept.
const LONGEST: usize = 1024;

// A program that is being entered: its source reference at the front of a buffer, with its size, 0 before the first program; its tables, its store and its record.
// Stays a buffer with a size beside it: a row may have as many bytes, and what is read is kept in fixed memory.
#[derive(Drop)]
struct Program {
    source: [u8; LONGEST],
    source_size: usize,
    names: [u8; 2048],
    values: [u8; 2048],
    store: [u8; 32768],
    record: Editor,
}

impl Program {
    // What stands before the first program.
    fn none() -> Program {
        Program {
            source: [0; LONGEST],
            source_size: 0,
            names: [0; 2048],
            values: [0; 2048],
            store: [0; 32768],
            record: empty(),
        }
    }

    // The program's source reference.
    fn source(&self) -> &[u8] {
        front(&self.source, self.source_size)
    }

    // Begins the program of a source reference, of which nothing is entered.
    fn begin(&mut self, source: &[u8]) {
        copy(&mut self.source, 0, source);
        self.source_size = source.len();
        self.record = empty();
    }

    // Enters a line, and says how many names that added, or why it is refused. Each line begins with its number, so the line buffer has no bytes, and a wrong one is not kept.
    fn enter(&mut self, text: &[u8]) -> Result<usize, RefusedItem> {
        let Program {
            names,
            values,
            store,
            record,
            ..
        } = self;
        let r = editor::enter(text, false, names, values, store, &mut [], *record);
        *record = r.editor;
        r.added
    }

    // Lists the line with a number to the front of a buffer, and says how many bytes that took.
    fn list(&self, number: usize, out: &mut [u8]) -> Result<usize, Refusal> {
        editor::list(
            number,
            &self.names,
            &self.values,
            &self.store,
            self.record,
            out,
        )
    }

    // The bytes of the stored line with a number, where there is one.
    fn line(&self, number: usize) -> Option<&[u8]> {
        let place = store::find(&self.store, Counts::from(self.record), number)?;
        let rest = self.store.get(place.at..)?;
        Some(front(rest, place.size))
    }

    // Prints the line with a number, as bytes and as its listing; nothing if it is not there.
    fn print_line(&self, rt: &impl Print, number: usize) {
        let mut out = [0; 1024];
        let Ok(written) = self.list(number, &mut out) else {
            return;
        };
        let Some(line) = self.line(number) else {
            return;
        };
        let line = Hex(line);
        let _ = println!(rt; "B\t{line}");
        let _ = rt.write_all(b"L\t");
        let _ = rt.write_all(front(&out, written));
        let _ = rt.write_all(b"\n");
    }

    // Prints the names of a program at its end; nothing before the first.
    fn print_end(&self, rt: &impl Print) {
        if self.source_size != 0 {
            let names = Hex(front(&self.names, self.record.name_bytes));
            let _ = println!(rt; "N\t{names}");
        }
    }
}

// Prints what entering a line answered.
fn print_entered(rt: &impl Print, text: &[u8], answer: Result<usize, RefusedItem>) {
    let (number, place, end) = match answer {
        Ok(_) => (0, 0, 0),
        Err(item) => (item.refusal.number(), item.place, item.end),
    };
    let _ = rt.write_all(b"E\t");
    let _ = rt.write_all(text);
    let _ = println!(rt; "\t{number}\t{place}\t{end}");
}

// Enters a line and prints what became of it.
fn enter(rt: &impl Print, text: &[u8], program: &mut Program) {
    let answer = program.enter(text);
    print_entered(rt, text, answer);
    if answer.is_err() {
        return;
    }
    if let Some(number) = number_in(front(text, run_end(text, 0, Run::Digits))) {
        program.print_line(rt, number);
    }
}

// Takes a row: its line is entered into the program of its reference, which begins here where it is another.
fn take_row(rt: &impl Print, row: &[u8], program: &mut Program) {
    let tab = field_end(row, 0, b'\t');
    let source = front(row, tab);
    let Some(text) = row.get(tab + 1..) else {
        let _ = println!(rt; "bad");
        return;
    };
    if source != program.source() {
        program.print_end(rt);
        program.begin(source);
        let _ = rt.write_all(b"P\t");
        let _ = rt.write_all(source);
        let _ = rt.write_all(b"\n");
    }
    enter(rt, text, program);
}

// Takes every row of the input, and ends the last program. A proved loop has to end, and nothing says that the input does: so its turns are as many as no run uses up.
fn take_all(rt: &impl Print, input: &mut impl BufRead) {
    let mut row = [0; LONGEST];
    let mut program = Program::none();
    for _ in 0..u64::MAX {
        let Some(length) = next_line(input, &mut row) else {
            break;
        };
        take_row(rt, whole(&row, length), &mut program);
    }
    program.print_end(rt);
}

fn main(rt: HostRuntime) {
    let mut input = Ahead::<AT_ONCE>::of(rt.stdin());
    take_all(&rt, &mut input);
}
