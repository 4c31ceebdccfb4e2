// The program of calls: reads calls from standard input, one a line, and answers each on a line of standard output before it needs the next.
#![tactic(auto)]

mod fields;

use console::{Ahead, Hex, next_line, whole};
use editor_batch::Batched;
use editor_edit::Editor;
use editor_examine::Flaw;
use fields::Fields;
use file_weigh::Columns;
use list_weigh::Weight;
use refusals::{Refusal, RefusedItem};
use std::fmt;
use std::io::BufRead;

// The longest line that is kept: more than any call has, unless its numbers begin with thousands of zeros.
const LONGEST: usize = 310000;

// The most bytes that a text of one line may have; that of a batch may have as many as its buffer.
const LONGEST_TEXT: usize = 4096;

// How many bytes of calls are read at once: a call may have hundreds of thousands.
const CALLS_AT_ONCE: usize = 65536;

// The rooms for the bytes of a call's fields.
#[derive(Drop)]
struct Rooms {
    text: [u8; 70000],
    names: [u8; 8192],
    values: [u8; 4096],
    store: [u8; 70000],
    direct: [u8; 4096],
    out: [u8; 65536],
}

// A program that a call lends: its tables, its store and its record.
#[derive(Drop)]
struct Program<'a> {
    names: &'a mut [u8],
    values: &'a mut [u8],
    store: &'a mut [u8],
    record: Editor,
}

// The program of the next fields, without the count of its lines and their greatest number.
fn read_program<'a>(
    fields: &mut Fields,
    names: &'a mut [u8],
    values: &'a mut [u8],
    store: &'a mut [u8],
) -> Option<Program<'a>> {
    let names = fields.bytes(names)?;
    let name_bytes = fields.number()?;
    let name_count = fields.number()?;
    let values = fields.bytes(values)?;
    let store = fields.bytes(store)?;
    let used = fields.number()?;
    let record = Editor {
        used,
        name_count,
        name_bytes,
        ..Editor::default()
    };
    Some(Program {
        names,
        values,
        store,
        record,
    })
}

// The program of the next fields with its whole record.
fn read_whole_program<'a>(
    fields: &mut Fields,
    names: &'a mut [u8],
    values: &'a mut [u8],
    store: &'a mut [u8],
) -> Option<Program<'a>> {
    let mut program = read_program(fields, names, values, store)?;
    program.record.lines = fields.number()?;
    program.record.greatest = fields.number()?;
    Some(program)
}

// A program is shown as the counts of its record, and the bytes of its tables and its store.
impl fmt::Display for Program<'_> {
    fn fmt<W: fmt::Write>(&self, f: &mut fmt::Formatter<W>) -> fmt::Result {
        let Editor {
            used,
            lines,
            greatest,
            name_count,
            name_bytes,
        } = self.record;
        let names = Hex(self.names);
        let values = Hex(self.values);
        let store = Hex(self.store);
        write!(
            f,
            "{used} {lines} {greatest} {name_bytes} {name_count} {names} {values} {store}"
        )
    }
}

impl Program<'_> {
    // Enters a text, and answers as `editor::enter` does.
    fn enter(&mut self, text: &[u8], keep: bool, direct: &mut [u8]) -> Result<usize, RefusedItem> {
        let r = editor::enter(
            text,
            keep,
            self.names,
            self.values,
            self.store,
            direct,
            self.record,
        );
        self.record = r.editor;
        r.added
    }

    // Enters the lines of a text.
    fn batch(&mut self, text: &[u8], keep: bool) -> Batched {
        let r = editor_batch::batch(text, keep, self.names, self.values, self.store, self.record);
        self.record = r.editor;
        r
    }

    // Examines the program.
    fn examine(&self) -> Result<(), Flaw> {
        let record = self.record;
        editor_examine::examine(
            self.names,
            record.name_bytes,
            record.name_count,
            self.values,
            self.store,
            record.used,
        )
    }

    // Lists a line.
    fn list(&self, line: usize, out: &mut [u8]) -> Result<usize, Refusal> {
        editor::list(line, self.names, self.values, self.store, self.record, out)
    }

    // Writes the program's file.
    fn save(&self, out: &mut [u8]) -> Result<usize, Refusal> {
        file_save::save(self.names, self.values, self.store, self.record, out)
    }

    // Takes the program of a file, and says 0 or the number of the refusal.
    fn load(&mut self, file: &[u8]) -> u8 {
        match file_load::load(file, self.names, self.values, self.store) {
            Ok(held) => {
                self.record = held;
                0
            }
            Err(refusal) => refusal.number(),
        }
    }

    // Takes back unused names, and says 0 or the number of the refusal.
    fn collect(&mut self) -> u8 {
        match editor_collect::collect(self.names, self.values, self.store, self.record) {
            Ok(left) => {
                self.record = left;
                0
            }
            Err(refusal) => refusal.number(),
        }
    }
}

// Answers a call of enter: number, place, its end, names added, the program afterwards, and the line buffer.
fn answer_enter(rt: &impl Print, fields: &mut Fields, rooms: &mut Rooms) -> Option<()> {
    let Rooms {
        text,
        names,
        values,
        store,
        direct,
        ..
    } = rooms;
    let text = fields.bytes(&mut text[..LONGEST_TEXT])?;
    let mut program = read_whole_program(fields, names, values, store)?;
    let direct = fields.bytes(direct)?;
    let keep = fields.switch()?;
    fields.end()?;
    let (number, place, end, added) = match program.enter(text, keep, direct) {
        Ok(added) => (0, 0, 0, added),
        Err(item) => (item.refusal.number(), item.place, item.end, 0),
    };
    let direct = Hex(direct);
    let _ = println!(rt; "{number} {place} {end} {added} {program} {direct}");
    Some(())
}

// Answers a call of batch: lines taken and refused; of the first refusal number, place, its end and line; the program afterwards.
fn answer_batch(rt: &impl Print, fields: &mut Fields, rooms: &mut Rooms) -> Option<()> {
    let Rooms {
        text,
        names,
        values,
        store,
        ..
    } = rooms;
    let text = fields.bytes(text)?;
    let mut program = read_whole_program(fields, names, values, store)?;
    let keep = fields.switch()?;
    fields.end()?;
    let r = program.batch(text, keep);
    let taken = r.taken;
    let refused = r.refused;
    let (number, place, end, line) = match r.first {
        None => (0, 0, 0, 0),
        Some(first) => (
            first.item.refusal.number(),
            first.item.place,
            first.item.end,
            first.line,
        ),
    };
    let _ = println!(rt; "{taken} {refused} {number} {place} {end} {line} {program}");
    Some(())
}

// Prints the answer of a call that writes to a buffer: number, bytes written and the buffer afterwards.
fn print_written(rt: &impl Print, written: Result<usize, Refusal>, out: &[u8]) {
    let (number, written) = match written {
        Ok(written) => (0, written),
        Err(refusal) => (refusal.number(), 0),
    };
    let out = Hex(out);
    let _ = println!(rt; "{number} {written} {out}");
}

// Answers a call of list.
fn answer_list(rt: &impl Print, fields: &mut Fields, rooms: &mut Rooms) -> Option<()> {
    let Rooms {
        names,
        values,
        store,
        out,
        ..
    } = rooms;
    let line = fields.number()?;
    let program = read_whole_program(fields, names, values, store)?;
    let out = fields.bytes(out)?;
    fields.end()?;
    let written = program.list(line, out);
    print_written(rt, written, out);
    Some(())
}

// Answers a call of show.
fn answer_show(rt: &impl Print, fields: &mut Fields, rooms: &mut Rooms) -> Option<()> {
    let Rooms {
        names,
        values,
        direct,
        out,
        ..
    } = rooms;
    let direct = fields.bytes(direct)?;
    let names = fields.bytes(names)?;
    let name_bytes = fields.number()?;
    let name_count = fields.number()?;
    let values = fields.bytes(values)?;
    let out = fields.bytes(out)?;
    fields.end()?;
    let written = editor::show(direct, names, name_bytes, name_count, values, out);
    print_written(rt, written, out);
    Some(())
}

// Answers a call of save.
fn answer_save(rt: &impl Print, fields: &mut Fields, rooms: &mut Rooms) -> Option<()> {
    let Rooms {
        names,
        values,
        store,
        out,
        ..
    } = rooms;
    let program = read_whole_program(fields, names, values, store)?;
    let out = fields.bytes(out)?;
    fields.end()?;
    let written = program.save(out);
    print_written(rt, written, out);
    Some(())
}

// Answers a call of load: number, and the program afterwards.
fn answer_load(rt: &impl Print, fields: &mut Fields, rooms: &mut Rooms) -> Option<()> {
    let Rooms {
        text,
        names,
        values,
        store,
        ..
    } = rooms;
    let file = fields.bytes(text)?;
    let mut program = read_whole_program(fields, names, values, store)?;
    fields.end()?;
    let number = program.load(file);
    let _ = println!(rt; "{number} {program}");
    Some(())
}

// Answers a call of collect: number, and the program afterwards.
fn answer_collect(rt: &impl Print, fields: &mut Fields, rooms: &mut Rooms) -> Option<()> {
    let Rooms {
        names,
        values,
        store,
        ..
    } = rooms;
    let mut program = read_whole_program(fields, names, values, store)?;
    fields.end()?;
    let number = program.collect();
    let _ = println!(rt; "{number} {program}");
    Some(())
}

// Answers a call of weigh: number and columns, each 0 where the file is refused.
fn answer_weigh(rt: &impl Print, fields: &mut Fields, rooms: &mut Rooms) -> Option<()> {
    let file = fields.bytes(&mut rooms.text)?;
    fields.end()?;
    let weighed = file_weigh::weigh(file);
    let number = match weighed {
        Ok(_) => 0,
        Err(refusal) => refusal.number(),
    };
    let Columns {
        lines,
        names,
        used,
        weight,
    } = file_weigh::columns_of(weighed);
    let Weight {
        listing,
        variables,
        numbers,
        strings,
        raw_text,
        others,
    } = weight;
    let _ = println!(rt;
        "{number} {lines} {names} {used} {listing} {variables} {numbers} {strings} {raw_text} {others}"
    );
    Some(())
}

// Answers a call of examine: what is wrong, and the number of a bad line.
fn answer_examine(rt: &impl Print, fields: &mut Fields, rooms: &mut Rooms) -> Option<()> {
    let Rooms {
        names,
        values,
        store,
        ..
    } = rooms;
    let program = read_program(fields, names, values, store)?;
    fields.end()?;
    let verdict = program.examine();
    let number = editor_examine::number_of(verdict);
    let line = editor_examine::line_of(verdict);
    let _ = println!(rt; "{number} {line}");
    Some(())
}

// Answers a call; none where the line is no call.
fn answer(rt: &impl Print, line: &[u8], rooms: &mut Rooms) -> Option<()> {
    let mut fields = Fields::of(line);
    match fields.next()? {
        b"enter" => answer_enter(rt, &mut fields, rooms),
        b"batch" => answer_batch(rt, &mut fields, rooms),
        b"list" => answer_list(rt, &mut fields, rooms),
        b"show" => answer_show(rt, &mut fields, rooms),
        b"examine" => answer_examine(rt, &mut fields, rooms),
        b"save" => answer_save(rt, &mut fields, rooms),
        b"load" => answer_load(rt, &mut fields, rooms),
        b"collect" => answer_collect(rt, &mut fields, rooms),
        b"weigh" => answer_weigh(rt, &mut fields, rooms),
        _ => None,
    }
}

// Answers every line of the input: what is no call is answered with `bad`. A proved loop has to end, and nothing says that the input does: so its turns are as many as no run uses up.
fn answer_all(rt: &impl Print, input: &mut impl BufRead, line: &mut [u8], rooms: &mut Rooms) {
    for _ in 0..u64::MAX {
        let Some(length) = next_line(input, line) else {
            return;
        };
        if answer(rt, whole(line, length), rooms).is_none() {
            let _ = println!(rt; "bad");
        }
    }
}

fn main(rt: HostRuntime) {
    let mut input = Ahead::<CALLS_AT_ONCE>::of(rt.stdin());
    let mut line = [0; LONGEST];
    let mut rooms = Rooms {
        text: [0; 70000],
        names: [0; 8192],
        values: [0; 4096],
        store: [0; 70000],
        direct: [0; 4096],
        out: [0; 65536],
    };
    answer_all(&rt, &mut input, &mut line, &mut rooms);
}
