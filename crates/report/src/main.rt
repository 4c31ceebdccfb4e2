// The report (document 02, §13): for each name of a file on standard input a line on standard output that says what the saved program in it weighs, or why
// it cannot be read; and last a line with the sums.
#![tactic(auto)]

ghost use Rattle.file_weigh.specs.Answers.{columns_in, Sized};

use buffers::front;
use console::{AT_ONCE, Ahead, next_line};
use file_weigh::{Columns, added, columns_of, no_columns, weigh};
use refusals::Refusal;
use std::fs::File;
use std::io;
use std::io::{BufRead, Read};

// How many names are taken at most, so that no sum can pass its bound; none that follow are looked at.
const MOST_NAMES: usize = 1073741824;

// The longest name that is kept: longer than any path.
const LONGEST_NAME: usize = 4096;

// Reads a file to its end, or as much of it as the buffer has room for, and says how many bytes that is.
// Stays a loop by hand: each read gives as many bytes as it likes, and a file is kept in fixed memory, where read_to_end would want a Vec.
fn read_file(from: &mut impl Read, file: &mut [u8]) -> io::Result<usize> {
    let mut size = 0;
    while size < file.len() {
        let part = from.read(&mut file[size..])?;
        if part == 0 {
            break;
        }
        size += part;
    }
    Ok(size)
}

// Opens the file with a name, reads it as `read_file` does, and closes it; none where that fails. A name is a path of UTF-8 text, as std's are.
fn read_named(rt: &HostRuntime, name: &[u8], file: &mut [u8]) -> Option<usize> {
    let path = str::from_utf8(name).ok()?;
    let mut from = File::open(rt, path).ok()?;
    read_file(&mut from, file).ok()
}

// What the file with a name weighs. The buffer has room for one byte more than a file may have.
fn weigh_file(rt: &HostRuntime, name: &[u8], file: &mut [u8]) -> Result<Columns, Refusal>
    ensures { Sized 65535 (columns_in result) }
{
    let size = read_named(rt, name, file).ok_or(Refusal::NoFile)?;
    weigh(front(file, size))
}

// Weighs the file with a name and prints its line; what it adds to the sums.
fn report_file(rt: &HostRuntime, name: &[u8], file: &mut [u8], out: &mut [u8]) -> Columns
    ensures { Sized 65535 result }
{
    let weighed = weigh_file(rt, name, file);
    let size = report_text::write_line(name, weighed, out);
    let _ = rt.write_all(front(out, size));
    columns_of(weighed)
}

// Reports on each name of the input, in order; the sums.
fn report_all(rt: &HostRuntime, input: &mut impl BufRead, out: &mut [u8]) -> Columns {
    let mut name = [0; LONGEST_NAME];
    let mut file = [0; 65536];
    let mut total = no_columns();
    for count in 0..MOST_NAMES {
        let Some(length) = next_line(input, &mut name) else {
            break;
        };
        total = added(total, report_file(rt, front(&name, length), &mut file, out));
    }
    total
}

// Reports on all names, and prints the sums.
fn main(rt: HostRuntime) {
    let mut input = Ahead::<AT_ONCE>::of(rt.stdin());
    let mut out = [0; 4352];
    let total = report_all(&rt, &mut input, &mut out);
    let size = report_text::write_total(total, &mut out);
    let _ = rt.write_all(front(&out, size));
}
