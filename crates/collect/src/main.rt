// The collector: reads a saved program file on standard input, takes back the names that no line uses, and writes the file of the program that is left to standard output. On
// standard error the last line says how it went: 0 or the number of the refusal, the names of the program before and after, and the bytes of its file.
#![tactic(auto)]

use buffers::front;
use console::{KEPT_FILE, read_file};
use editor_edit::{Editor, empty};
use refusals::Refusal;

// The program that is read: its tables, its store and its record.
// Stays a type of this program alone: each program has rooms of sizes of its own and lends them to calls of its own, and one type for all would say the contracts of these calls again.
#[derive(Drop)]
struct Program {
    names: [u8; 65535],
    values: [u8; 2048],
    store: [u8; 65535],
    record: Editor,
}

impl Program {
    // A program with empty tables and an empty store.
    fn empty() -> Program {
        Program {
            names: [0; 65535],
            values: [0; 2048],
            store: [0; 65535],
            record: empty(),
        }
    }

    // Takes the program of a file.
    fn load(&mut self, file: &[u8]) -> Result<(), Refusal> {
        let Program {
            names,
            values,
            store,
            record,
        } = self;
        *record = file_load::load(file, names, values, store)?;
        Ok(())
    }

    // Takes back the names that no line uses.
    fn collect(&mut self) -> Result<(), Refusal> {
        let Program {
            names,
            values,
            store,
            record,
        } = self;
        *record = editor_collect::collect(names, values, store, *record)?;
        Ok(())
    }

    // Takes back the names that no line uses, writes the program's file to the front of a buffer, and says how many bytes it has.
    fn write(&mut self, file: &mut [u8]) -> Result<usize, Refusal> {
        self.collect()?;
        file_save::save(&self.names, &self.values, &self.store, self.record, file)
    }
}

// Reads the file on standard input, and writes that of its program without unused names.
fn main(rt: HostRuntime) {
    let mut file = [0; KEPT_FILE];
    let mut program = Program::empty();
    let size = read_file(&mut file);
    let loaded = program.load(front(&file, size));
    let before = program.record.name_count;
    let (number, written) = match loaded.and_then(|()| program.write(&mut file)) {
        Ok(written) => (0, written),
        Err(refusal) => (refusal.number(), 0),
    };
    let after = program.record.name_count;
    let _ = rt.write_all(front(&file, written));
    let _ = eprintln!(rt; "S\t{number}\t{before}\t{after}\t{written}");
}
