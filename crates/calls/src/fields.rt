// The fields of a call, parted by one blank: bytes in lowercase hexadecimal, `-` for none, and numbers in decimal.
ghost use Rattle.std.specs.Prelude.{◌<◌, IfSome};

use buffers::front;
use console::{field_end, number_in};

// What is left of a call to be read: none once its last field was read.
#[derive(Drop)]
pub(crate) struct Fields<'a> {
    rest: Option<&'a [u8]>,
}

// The worth of a lowercase hexadecimal digit.
// Stays by hand: std's to_digit takes capitals too.
fn nibble(b: u8) -> Option<u8>
    ensures { IfSome result (λ n. n < 16) }
{
    match b {
        b'0'..=b'9' => Some(b - b'0'),
        b'a'..=b'f' => Some(b - b'a' + 10),
        _ => None,
    }
}

// The byte that two digits write.
fn pair(high: u8, low: u8) -> Option<u8> {
    Some(nibble(high)? * 16 + nibble(low)?)
}

// Puts the byte of each two digits into a buffer of half as many bytes, as far as these are digits.
fn read_pairs(digits: &[u8], out: &mut [u8]) -> Option<()> {
    for (byte, pair_of) in out.iter_mut().zip(digits.chunks_exact(2)) {
        let [high, low] = pair_of else {
            return None;
        };
        *byte = pair(*high, *low)?;
    }
    Some(())
}

impl<'a> Fields<'a> {
    // The fields of a line.
    pub(crate) fn of(line: &'a [u8]) -> Fields<'a> {
        Fields { rest: Some(line) }
    }

    // The next field, where one is left.
    pub(crate) fn next(&mut self) -> Option<&'a [u8]> {
        let rest = self.rest?;
        let end = field_end(rest, 0, b' ');
        self.rest = rest.get(end + 1..);
        Some(front(rest, end))
    }

    // The bytes of the next field, put to the front of a buffer that has room for them.
    pub(crate) fn bytes<'b>(&mut self, room: &'b mut [u8]) -> Option<&'b mut [u8]> {
        let digits = self.next()?;
        if matches!(digits, [b'-']) {
            return room.get_mut(..0);
        }
        if digits.is_empty() || digits.len() % 2 == 1 {
            return None;
        }
        let bytes = room.get_mut(..digits.len() / 2)?;
        read_pairs(digits, bytes)?;
        Some(bytes)
    }

    // The number of the next field.
    pub(crate) fn number(&mut self) -> Option<usize> {
        number_in(self.next()?)
    }

    // The switch of the next field, 0 or 1.
    pub(crate) fn switch(&mut self) -> Option<bool> {
        match self.number()? {
            0 => Some(false),
            1 => Some(true),
            _ => None,
        }
    }

    // Whether no field is left.
    pub(crate) fn end(&self) -> Option<()> {
        self.rest.is_none().then_some(())
    }
}
