// The error line of a refused text: whether it is kept, and its bytes.
#![tactic(auto)]

ghost use Rattle.std.specs.Prelude.{◌≡◌, ◌≤◌, length, take, get_or};
ghost use Rattle.paper.specs.Bytes.{blank};
ghost use Rattle.paper.specs.Line.{direct_number};
ghost use Rattle.paper.specs.Errors.{flipped, marked_at, error_line, keepable?};
ghost use Rattle.enter_error.specs.Keeps.{keeps?};

use buffers::{copy, put};
use enter_item::{LINE_ROOM, low_byte};
use refusals::Refusal;
use tokens::StatementToken;

// The number of a line that is read without one.
pub const DIRECT_NUMBER: usize = 32768;

// The statement token of an error line.
const ERROR_TOKEN: u8 = StatementToken::ERROR.0;

// The byte at a place of a text, a blank past its end.
fn byte_or_blank(text: &[u8], place: usize) -> u8
    ensures { result ≡ get_or text.now place blank }
{
    text.get(place).copied().unwrap_or(b' ')
}

// A byte with its top bit flipped.
fn flip(b: u8) -> u8
    ensures { result ≡ flipped b }
{
    if 128 <= b { b % 128 } else { b + 128 }
}

// Whether a text that is refused at a place can be kept: it has no 9B, and no 1B at the place.
fn is_keepable(text: &[u8], place: usize) -> bool
    ensures { result ≡ keepable? place text.now }
{
    !text.contains(&0x9B) && byte_or_blank(text, place) != 0x1B
}

// Whether the line with a number that is refused at a place of its text is kept: where wrong lines are, with 4, and if its text has no 9B, and no 1B at
// the place. One without a number is not.
// Stays a number: what is said of each number, of a refusal or not, may not be said of fewer.
pub fn keeps(text: &[u8], keep: bool, line_number: usize, number: u8, place: usize) -> bool
    ensures { result ≡ keeps? keep text.now line_number number place }
{
    line_number != DIRECT_NUMBER
        && keep
        && number == Refusal::NoReading.number()
        && is_keepable(text, place)
}

// How many bytes a text has with the byte at a place flipped: a place at its end adds one.
fn marked_size(text: &[u8], place: usize) -> usize
    requires { place ≤ length text.now }
    ensures { result ≡ length (marked_at place text.now) }
{
    if place < text.len() {
        text.len()
    } else {
        text.len() + 1
    }
}

// Writes the error line with a number to the front of a buffer, its text with the byte at a place flipped, and returns how many bytes it has.
pub fn write_error_line(
    number: usize,
    text: &[u8],
    place: usize,
    line: &mut [u8; LINE_ROOM],
) -> usize
    requires { (number ≤ direct_number) × (place ≤ length text.now) × (length text.now ≤ 120) }
    ensures { (result ≡ length (error_line number (marked_at place text.now))) × (take result line.new ≡ error_line number (marked_at place text.now)) }
{
    let mark = flip(byte_or_blank(text, place));
    let size = 6 + marked_size(text, place);
    copy(line, 0, &(number as u16).to_le_bytes());
    put(line, 2, low_byte(size));
    put(line, 3, low_byte(size));
    put(line, 4, ERROR_TOKEN);
    copy(line, 5, text);
    put(line, 5 + place, mark);
    put(line, size - 1, 0x9B);
    size
}
