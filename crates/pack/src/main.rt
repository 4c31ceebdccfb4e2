// The packer: enters the lines of a listing on standard input over an empty program, and writes the program's file to standard output. On standard error a line
// for each refused line says which it is, the number, and the place with its end; the last line says how it went.
#![tactic(auto)]

use buffers::front;
use console::{AT_ONCE, Ahead, KEPT, next_line};
use editor_edit::{Editor, empty};
use refusals::{Refusal, RefusedItem};
use std::io::BufRead;

// The program that is packed: its tables, its store and its record.
// Stays a type of this program alone: each program has rooms of sizes of its own and lends them to calls of its own, and one type for all would say the contracts of these calls again.
#[derive(Drop)]
struct Program {
    names: [u8; 32768],
    values: [u8; 2048],
    store: [u8; 65535],
    record: Editor,
}

impl Program {
    // A program with empty tables and an empty store.
    fn empty() -> Program {
        Program {
            names: [0; 32768],
            values: [0; 2048],
            store: [0; 65535],
            record: empty(),
        }
    }

    // Enters a line, and says how many names that added, or why it is refused. No line buffer is lent, so that a line without a number is refused.
    fn enter(&mut self, text: &[u8]) -> Result<usize, RefusedItem> {
        let Program {
            names,
            values,
            store,
            record,
        } = self;
        let r = editor::enter(text, false, names, values, store, &mut [], *record);
        *record = r.editor;
        r.added
    }

    // Writes the program's file to the front of a buffer, and says how many bytes it has.
    fn save(&self, file: &mut [u8]) -> Result<usize, Refusal> {
        file_save::save(&self.names, &self.values, &self.store, self.record, file)
    }
}

// Enters every line of the input, and tells of each that is refused.
fn enter_all(rt: &impl Eprint, input: &mut impl BufRead, program: &mut Program) {
    let mut text = [0; KEPT];
    for count in 1..=usize::MAX {
        let Some(length) = next_line(input, &mut text) else {
            return;
        };
        if let Err(item) = program.enter(front(&text, length)) {
            let number = item.refusal.number();
            let place = item.place;
            let end = item.end;
            let _ = eprintln!(rt; "R\t{count}\t{number}\t{place}\t{end}");
        }
    }
}

// Writes the program's file, and tells how it went: 0 or the number of the refusal, the lines and names of the program, and the bytes of its file.
fn write(rt: &(impl Print + Eprint), program: &Program) {
    let mut file = [0; 65549];
    let (number, written) = match program.save(&mut file) {
        Ok(written) => (0, written),
        Err(refusal) => (refusal.number(), 0),
    };
    let _ = rt.write_all(front(&file, written));
    let lines = program.record.lines;
    let names = program.record.name_count;
    let _ = eprintln!(rt; "S\t{number}\t{lines}\t{names}\t{written}");
}

fn main(rt: HostRuntime) {
    let mut input = Ahead::<AT_ONCE>::of(rt.stdin());
    let mut program = Program::empty();
    enter_all(&rt, &mut input, &mut program);
    write(&rt, &program);
}
