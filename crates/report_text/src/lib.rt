// The lines of the report (document 02, §13) as bytes: numbers after tabs, a program's line and the last one.
#![tactic(auto)]

ghost use Rattle.std.specs.Prelude.{◌≡◌, ◌≤◌, ◌+◌, ◌^◌, length, drop};
ghost use Rattle.paper.specs.Listing.{decimal};
ghost use Rattle.paper.specs.Weigh.{field, columns_text, report_line, total_line};
ghost use Rattle.list_text.specs.Texts.{Writes};
ghost use Rattle.file_weigh.specs.Answers.{columns, weighed as weighed-answer};
ghost use Rattle.report_text.specs.Fields.{fields, answer_text, numbered};

use buffers::{copy, put};
use file_weigh::{Columns, no_columns};
use refusals::Refusal;

// How many digits a number may have.
const DIGITS: usize = 20;

// What stands before the number of a refusal.
const REFUSED: [u8; 8] = *b"\trefused";

// The name of the last line.
const TOTAL: [u8; 5] = *b"total";

// Puts the digits of a number at the end of a buffer that has room for the most, and returns the place of the first.
fn put_digits(number: usize, digits: &mut [u8]) -> usize
    requires { length digits.old ≡ 20 }
    ensures { (drop result digits.new ≡ decimal 20 number) × (result ≤ 20) }
{
    let mut rest = number;
    for at in (0..DIGITS).rev() {
        digits[at] = b'0' + (rest % 10) as u8;
        if rest < 10 {
            return at;
        }
        rest /= 10;
    }
    0
}

// Writes a number in decimal to a place of a buffer, as much as fits, and returns how many digits it has.
fn write_number(number: usize, out: &mut [u8], n: usize) -> usize
    ensures { Writes (decimal 20 number) n out.old result out.new × (result ≤ 20) }
{
    let mut digits = [0u8; DIGITS];
    let at = put_digits(number, &mut digits);
    copy(out, n, &digits[at..]);
    DIGITS - at
}

// Writes a tab and a number.
fn write_field(number: usize, out: &mut [u8], n: usize) -> usize
    requires { n ≤ 2 ^ 63 + 200 }
    ensures { Writes (field number) n out.old result out.new × (result ≤ 21) }
{
    put(out, n, b'\t');
    write_number(number, out, n + 1) + 1
}

// Writes a tab and a number for each of some numbers.
fn write_fields(numbers: &[usize], out: &mut [u8], n: usize) -> usize
    requires { (n ≤ 2 ^ 63) × (length numbers.now ≤ 9) }
    ensures { Writes (fields numbers.now) n out.old result out.new × (result ≤ 189) }
{
    let mut written = 0;
    for number in numbers {
        written += write_field(*number, out, n + written);
    }
    written
}

// Writes the columns of a program, or sums of columns.
fn write_columns(c: Columns, out: &mut [u8], n: usize) -> usize
    requires { n ≤ 2 ^ 63 }
    ensures { Writes (columns_text (columns c)) n out.old result out.new × (result ≤ 189) }
{
    let w = c.weight;
    write_fields(
        &[
            c.lines,
            c.names,
            c.used,
            w.listing,
            w.variables,
            w.numbers,
            w.strings,
            w.raw_text,
            w.others,
        ],
        out,
        n,
    )
}

// Writes the columns of a program, or `refused` and a number that is not 0.
fn write_answer(number: u8, c: Columns, out: &mut [u8], n: usize) -> usize
    requires { n ≤ 2 ^ 63 }
    ensures { Writes (answer_text (numbered number c)) n out.old result out.new × (result ≤ 189) }
{
    let refused = number != 0;
    if refused {
        copy(out, n, &REFUSED);
        write_field(number as usize, out, n + 8) + 8
    } else {
        write_columns(c, out, n)
    }
}

// Writes the line of a program with a name, a number and columns to the front of a buffer, as much as fits, and returns its length: the columns for 0, and `refused`
// and the number for any other, also for one that no refusal has.
pub fn write_numbered(name: &[u8], number: u8, c: Columns, out: &mut [u8]) -> usize
    ensures { Writes (report_line name.now (numbered number c)) 0 out.old result out.new }
{
    copy(out, 0, name);
    let end = name.len() + write_answer(number, c, out, name.len());
    put(out, end, b'\n');
    end + 1
}

// Writes the line of a program with a name to the front of a buffer, as much as fits, and returns its length.
pub fn write_line(name: &[u8], weighed: Result<Columns, Refusal>, out: &mut [u8]) -> usize
    ensures { Writes (report_line name.now (weighed-answer weighed)) 0 out.old result out.new }
{
    match weighed {
        Ok(columns) => write_numbered(name, 0, columns, out),
        Err(refusal) => write_numbered(name, refusal.number(), no_columns(), out),
    }
}

// Writes the last line, the sums, to the front of a buffer, as much as fits, and returns its length.
pub fn write_total(c: Columns, out: &mut [u8]) -> usize
    ensures { Writes (total_line (columns c)) 0 out.old result out.new }
{
    copy(out, 0, &TOTAL);
    let end = write_columns(c, out, 5) + 5;
    put(out, end, b'\n');
    end + 1
}
