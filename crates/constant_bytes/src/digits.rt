// The digits of a number's text, one after the other whether or not a point stands between them, and the bytes that they make.
ghost use Rattle.std.specs.Prelude.{◌≡◌, ◌+◌, ◌^◌, ◌≤◌, ◌<◌, length};
ghost use Rattle.paper.specs.Bytes.{run};
ghost use Rattle.constant_bytes.specs.Numerals.{Written, digits_in, digit_at, pair_at, nought?, up, down, bytes_with, six_from};

use super::Numeral;

// The digits of a number at the front of a text.
#[derive(Clone, Copy)]
pub struct Digits<'a> {
    pub text: &'a [u8],
    pub numeral: Numeral,
    ghost written: { Written text.now numeral },
}

impl Digits<'_> {
    // How many digits there are.
    pub fn count(self) -> usize
        ensures { result ≡ length (digits_in self.entry.text.now self.entry.numeral) }
    {
        self.numeral.whole + self.numeral.fraction
    }

    // The digit at a place among them, 0 past the last.
    pub fn at(self, i: usize) -> u8
        ensures { (result ≡ digit_at (digits_in self.entry.text.now self.entry.numeral) i) × (result ≤ 9) }
    {
        if i < self.numeral.whole {
            self.text[i] - b'0'
        } else if i - self.numeral.whole < self.numeral.fraction {
            self.text[i + 1] - b'0'
        } else {
            0
        }
    }

    // Two digits from a place on, as one byte.
    pub fn pair_at(self, i: usize) -> u8
        requires { i < length self.text.now + 9 }
        ensures { (result ≡ pair_at (digits_in self.entry.text.now self.entry.numeral) i) × (result ≤ 0x99) }
    {
        self.at(i) * 16 + self.at(i + 1)
    }

    // The place of the first digit that is not zero; past the last digit if there is none.
    pub fn leading(self) -> usize
        ensures { result ≡ run nought? (digits_in self.entry.text.now self.entry.numeral) }
    {
        let count = self.count();
        for i in 0..count {
            if self.at(i) != 0 {
                return i;
            }
        }
        count
    }

    // A power byte, a first pair, and eight digits from a place on.
    pub fn bytes_with(self, power: u8, top: u8, at: usize) -> [u8; 6]
        requires { at ≤ length self.text.now + 2 }
        ensures { result ≡ bytes_with power top (digits_in self.entry.text.now self.entry.numeral) at }
    {
        [
            power,
            top,
            self.pair_at(at),
            self.pair_at(at + 2),
            self.pair_at(at + 4),
            self.pair_at(at + 6),
        ]
    }

    // The six bytes by the digits from the first that is not zero on; `place` is its power of ten and 98.
    pub fn six_from(self, first: usize, place: usize) -> [u8; 6]
        requires { (first < length self.text.now) × (place < 196) }
        ensures { result ≡ six_from (digits_in self.entry.text.now self.entry.numeral) first place }
    {
        let power = (place / 2 + 15) as u8;
        if place % 2 == 0 {
            self.bytes_with(power, self.at(first), first + 1)
        } else {
            self.bytes_with(power, self.pair_at(first), first + 2)
        }
    }
}
