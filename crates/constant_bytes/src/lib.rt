// Numerals: the text of a number as six bytes.
#![tactic(auto)]

ghost use Rattle.std.specs.Prelude.{◌≡◌, ◌+◌, ◌^◌, ◌≤◌, ◌<◌};
ghost use Rattle.constant_bytes.specs.Numerals.{Written, numeral_six, up, down};

mod digits;

use digits::Digits;

// A number that is not zero is in range from 10 to the power of -98 on, and below 10 to the power of 98.
const RANGE: usize = 98;

// A number's text as it was found: `whole` digits at the front, then, if there is a point, the point and `fraction` digits; the
// exponent's sign (`down`: a minus) and its value, 0 without one.
// Stays a sign beside a size: the text has them so, and both are needed apart: one number's digits are multiplied by the power, another's divided.
#[derive(Clone, Copy)]
pub struct Numeral {
    pub whole: usize,
    pub fraction: usize,
    pub down: bool,
    pub power: u8,
}

impl Numeral {
    // The power of ten that the digits, as one whole number, are multiplied by.
    fn up(self) -> usize
        ensures { (result ≡ up self) × (result ≤ 255) }
    {
        if self.down { 0 } else { self.power as usize }
    }

    // The power of ten that they are divided by.
    fn below(self) -> usize
        requires { self.fraction < 2 ^ 63 }
        ensures { (result ≡ down self) × (result ≤ self.fraction + 255) }
    {
        if self.down {
            self.fraction + self.power as usize
        } else {
            self.fraction
        }
    }
}

// The six bytes of the number at the front of a text, where its digits were found; none if it is out of range. The range is tested on the value as
// it is written; digits after the tenth are cut.
pub fn six_bytes(text: &[u8], n: Numeral) -> Option<[u8; 6]>
    requires { Written text.now n }
    ensures { result ≡ numeral_six text.now n }
{
    let digits = Digits { text, numeral: n };
    let count = digits.count();
    let first = digits.leading();
    if count <= first {
        return Some([0; 6]);
    }
    // The value is at least 10 to the power of `up - down`, and below ten times that.
    let up = count - 1 - first + n.up();
    let down = n.below();
    if up + RANGE < down {
        return None;
    }
    if RANGE + down <= up {
        return None;
    }
    Some(digits.six_from(first, up + RANGE - down))
}
