// The unpacker: reads a saved program file on standard input, and prints the listing of its program on standard output. On standard error a line for each stored
// line that cannot be listed says its number and the refusal; the last line says how it went.
#![tactic(auto)]

use buffers::front;
use console::{KEPT_FILE, read_file};
use editor_edit::{Editor, empty};
use refusals::Refusal;
use store::heads;

// The program that is unpacked: its tables, its store and its record.
// Stays a type of this program alone: each program has rooms of sizes of its own and lends them to calls of its own, and one type for all would say the contracts of these calls again.
#[derive(Drop)]
struct Program {
    names: [u8; 65535],
    values: [u8; 2048],
    store: [u8; 65535],
    record: Editor,
}

impl Program {
    // A program with empty tables and an empty store.
    fn empty() -> Program {
        Program {
            names: [0; 65535],
            values: [0; 2048],
            store: [0; 65535],
            record: empty(),
        }
    }

    // Takes the program of a file.
    fn load(&mut self, file: &[u8]) -> Result<(), Refusal> {
        let Program {
            names,
            values,
            store,
            record,
        } = self;
        *record = file_load::load(file, names, values, store)?;
        Ok(())
    }

    // Lists the line with a number to the front of a buffer, and says how many bytes that took.
    fn list(&self, number: usize, out: &mut [u8]) -> Result<usize, Refusal> {
        editor::list(
            number,
            &self.names,
            &self.values,
            &self.store,
            self.record,
            out,
        )
    }
}

// Prints the listing of every stored line, in order, or tells why one has none.
// Goes over the rest by hand, as the other walks over a store's lines do: crate `store` has no iterator over them.
fn list_all(rt: &(impl Print + Eprint), program: &Program) {
    let mut out = [0; 65536];
    let mut rest = front(&program.store, program.record.used);
    while !rest.is_empty() {
        let number = heads::number(rest);
        match program.list(number, &mut out) {
            Ok(written) => {
                let _ = rt.write_all(front(&out, written));
                let _ = rt.write_all(b"\n");
            }
            Err(refusal) => {
                let refusal = refusal.number();
                let _ = eprintln!(rt; "R\t{number}\t{refusal}");
            }
        }
        let size = heads::size(rest);
        if size == 0 {
            return;
        }
        rest = rest.get(size..).unwrap_or(&[]);
    }
}

// Reads the file on standard input and lists its program, and tells how it went: 0 or the number of the refusal, the lines and names of the program, and the bytes of the file.
fn main(rt: HostRuntime) {
    let mut file = [0; KEPT_FILE];
    let mut program = Program::empty();
    let size = read_file(&mut file);
    let number = match program.load(front(&file, size)) {
        Ok(()) => 0,
        Err(refusal) => refusal.number(),
    };
    list_all(&rt, &program);
    let lines = program.record.lines;
    let names = program.record.name_count;
    let _ = eprintln!(rt; "S\t{number}\t{lines}\t{names}\t{size}");
}
