// Standard input, a line at a time, and the numbers in it.
ghost use Rattle.std.specs.Prelude.{◌≡◌, ◌+◌, ◌≤◌, drop, length as list_length};
ghost use Rattle.paper.specs.Bytes.{run};
ghost use Rattle.console.specs.Numbers.{number_of};
ghost use Rattle.console.specs.Fields.{unmarked, all_or_none};

use buffers::{Run, TOO_GREAT, copy, decimal, run_end};
use std::io::{BufRead, Read, Stdin};

// The longest text of a line that is kept to be entered: one byte more than may be entered, so that any longer line is refused as such.
pub const KEPT: usize = 121;

// The longest file that is kept: longer than any that is not refused, so that any longer one is refused as such.
pub const KEPT_FILE: usize = 65550;

// How many bytes of lines are read at once.
pub const AT_ONCE: usize = 8192;

// The file descriptor of standard input.
const STANDARD_INPUT: i32 = 0;

// Reads a file on standard input to the front of a buffer, as much as that has room for, and says how many bytes it has there.
pub fn read_file(file: &mut [u8]) -> usize {
    io::read_full(STANDARD_INPUT, file)
}

// Standard input between two lines: the bytes of a buffer from `at` to `end` are read and not yet taken.
#[derive(Clone, Copy)]
pub struct Input {
    pub at: usize,
    pub end: usize,
}

// The input of which nothing is read.
pub fn start() -> Input
    ensures { (result.at ≡ 0) × (result.end ≡ 0) }
{
    Input { at: 0, end: 0 }
}

// Standard input with a buffer of so many bytes, which are read at once.
#[derive(Drop)]
pub struct Ahead<const SIZE: usize> {
    stdin: Stdin,
    buffer: [u8; SIZE],
    pub input: Input,
}

impl<const SIZE: usize> Ahead<SIZE> {
    // Standard input, of which nothing is read.
    pub fn of(stdin: Stdin) -> Ahead<SIZE>
        ensures { (result.input.at ≡ 0) × (result.input.end ≡ 0) }
    {
        Ahead {
            stdin,
            buffer: [0; SIZE],
            input: start(),
        }
    }
}

impl<const SIZE: usize> Read for Ahead<SIZE> {
    // Takes bytes that are read, or that one read gives, as many as there is room for.
    fn read(&mut self, room: &mut [u8]) -> std::io::Result<usize> {
        let ahead = self.fill_buf()?;
        let size = ahead.len().min(room.len());
        room[..size].copy_from_slice(&ahead[..size]);
        self.consume(size);
        Ok(size)
    }
}

impl<const SIZE: usize> BufRead for Ahead<SIZE> {
    // The bytes that are read and not yet taken; where there are none, those that one read gives.
    fn fill_buf(&mut self) -> std::io::Result<&[u8]> {
        if self.input.end <= self.input.at {
            self.input = start();
            self.input.end = self.stdin.read(&mut self.buffer)?;
        }
        let Input { at, end } = self.input;
        Ok(self.buffer.get(at..end).unwrap_or(&[]))
    }

    // Takes so many of the bytes that are read, or all where they are fewer.
    fn consume(&mut self, amount: usize) {
        self.input.at = self.input.at.saturating_add(amount).min(self.input.end);
    }
}

// How far a line was taken: up to its 0A, or up to the end of what is read, so many bytes of it so far; or the input is at its end.
enum Taken {
    Closed(usize),
    Open(usize),
    End,
}

// Takes what is read of a line after so many bytes of it, up to its 0A, and keeps it as far as the line's buffer has room. A read that fails ends the input.
fn take_part<R: BufRead>(input: &mut R, length: usize, line: &mut [u8]) -> Taken {
    let Ok(read) = input.fill_buf() else {
        return Taken::End;
    };
    if read.is_empty() {
        return Taken::End;
    }
    let size = read.len();
    match read.iter().position(|b| *b == b'\n') {
        Some(end) => {
            copy(line, length, &read[..end]);
            input.consume(end + 1);
            Taken::Closed(length.saturating_add(end))
        }
        None => {
            copy(line, length, read);
            input.consume(size);
            Taken::Open(length.saturating_add(size))
        }
    }
}

// How many bytes the next line of the input has without its 0A, or none at the input's end. Its first bytes are kept in `line`, as many as that has room for. 0A closes a line, and so does
// the input's end after at least one byte. A proved loop has to end, and nothing says that the input does: so its turns are as many as no run uses up.
pub fn next_line<R: BufRead>(input: &mut R, line: &mut [u8]) -> Option<usize> {
    let mut length = 0;
    for _ in 0..u64::MAX {
        match take_part(input, length, line) {
            Taken::Closed(all) => return Some(all),
            Taken::Open(part) => length = part,
            Taken::End => return (0 < length).then_some(length),
        }
    }
    None
}

// The bytes of a line, or none where the line's buffer has not kept them all.
pub fn whole<'a>(line: &'a [u8], size: usize) -> &'a [u8]
    ensures { result.now ≡ all_or_none size line.now }
{
    match line.get(..size) {
        Some(kept) => kept,
        None => &[],
    }
}

// The end of the field that begins at a place of a line: the next mark, or the line's end.
pub fn field_end(line: &[u8], at: usize, mark: u8) -> usize
    requires { at ≤ list_length line.now }
    ensures { (result ≡ at + run (unmarked mark) (drop at line.now)) × (at ≤ result) × (result ≤ list_length line.now) }
{
    match line[at..].iter().position(|b| *b == mark) {
        Some(size) => at + size,
        None => line.len(),
    }
}

// The number that decimal digits write, where there are digits alone and the number is below 2 ^ 63.
// Stays by hand: std's parse takes a sign before the digits, and numbers from 2 ^ 63 on.
pub fn number_in(digits: &[u8]) -> Option<usize>
    ensures { result ≡ number_of digits.now }
{
    if digits.is_empty() {
        return None;
    }
    if run_end(digits, 0, Run::Digits) < digits.len() {
        return None;
    }
    let number = decimal(digits);
    (number < TOO_GREAT).then_some(number)
}
