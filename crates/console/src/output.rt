// How bytes are shown.
use buffers::front;
use std::fmt;

// Bytes, shown as two digits each in lowercase hexadecimal, and as `-` where there are none.
#[derive(Clone, Copy)]
pub struct Hex<'a>(pub &'a [u8]);

// How many bytes are shown at once, and by how many digits.
const SHOWN: usize = 512;

const DIGITS: usize = 2 * SHOWN;

// The last hexadecimal digit of a number.
fn digit(n: u8) -> u8 {
    let d = n % 16;
    if d < 10 { b'0' + d } else { b'a' - 10 + d }
}

// Shows bytes, at most SHOWN of them. Digits are text, so `from_utf8` never fails here.
fn show<W: fmt::Write>(bytes: &[u8], f: &mut fmt::Formatter<W>) -> fmt::Result {
    let mut digits = [0; DIGITS];
    for (pair, b) in digits.chunks_exact_mut(2).zip(bytes) {
        pair[0] = digit(*b / 16);
        pair[1] = digit(*b);
    }
    match str::from_utf8(front(&digits, 2 * bytes.len())) {
        Ok(text) => f.write_str(text),
        Err(_) => Err(fmt::Error),
    }
}

impl fmt::Display for Hex<'_> {
    fn fmt<W: fmt::Write>(&self, f: &mut fmt::Formatter<W>) -> fmt::Result {
        if self.0.is_empty() {
            return f.write_str("-");
        }
        for part in self.0.chunks(SHOWN) {
            show(part, f)?;
        }
        Ok(())
    }
}
