// Six bytes as text: how the digits are laid out, and writing them.
ghost use Rattle.std.specs.Prelude.{◌≡◌, false, ◌&&◌, [], ◌∷◌, ◌+◌, ◌/◌, ◌%◌, ◌≤◌, ◌<◌, leb, eqb, length, get_or};
ghost use Rattle.std.proofs.lemmas.List.Edits.{sets};
ghost use Rattle.std.proofs.Math.Seq.{slice};
ghost use Rattle.paper.specs.Bytes.{pick};
ghost use Rattle.paper.specs.Constants.{with_point, constant_text};
ghost use Rattle.constant_text.specs.Texts.{six_here, digits_here, lead, power_part, Trims, Shaped, Wrote, part_size, size_of};

use crate::layout::Layout;

// The first byte of 0.01: from here on a constant's text has no power of ten.
const PLAIN_LEAST: u8 = 0x3f;

// The first byte of the constants just below 1E10: from there on the text has one again.
const PLAIN_MOST: u8 = 0x44;

// How many digits five bytes have.
const DIGITS: usize = 10;

// What is added to a power of ten in a layout.
const UNIT: usize = 137;

// A digit of a constant, as text.
pub fn digit(six: &[u8; 6], i: usize) -> u8
    requires { i < 10 }
    ensures { result ≡ get_or (digits_here six.now 0) i 48 }
{
    let b = six[1 + i / 2];
    if i % 2 == 0 {
        b'0' + b / 16
    } else {
        b'0' + b % 16
    }
}

// The end of the digits from a place on, without the useless zeros.
pub fn last(six: &[u8; 6], point: usize) -> usize
    requires { point ≤ 10 }
    ensures { Trims (digits_here six.now 0) point result }
{
    for end in (point..DIGITS).rev() {
        if digit(six, end) != b'0' {
            return end + 1;
        }
    }
    point
}

// How many zeros stand in front of the digits, one at most.
pub fn skipped(six: &[u8; 6]) -> usize
    ensures { result ≡ pick (eqb (get_or (digits_here six.now 0) 0 48) 48) 1 0 }
{
    if digit(six, 0) == b'0' { 1 } else { 0 }
}

// The layout with no power of ten.
pub fn plain(six: &[u8; 6]) -> Layout
    requires { (0x3f ≤ get_or six.now 0 0) × (get_or six.now 0 0 ≤ 0x44) }
    ensures { Shaped (digits_here six.now 0) (constant_text (six_here six.now 0)) result }
{
    let point = 2 * (six[0] - PLAIN_LEAST) as usize;
    let end = last(six, point);
    if point == 0 {
        return Layout {
            from: 0,
            point,
            end,
            power: None,
        };
    }
    Layout {
        from: skipped(six),
        point,
        end,
        power: None,
    }
}

// The layout with a power of ten.
pub fn powered(six: &[u8; 6]) -> Layout
    requires { (get_or six.now 0 0 ≡ 0 → ⊥) × ((leb 0x3f (get_or six.now 0 0) && leb (get_or six.now 0 0) 0x44) ≡ false) }
    ensures { Shaped (digits_here six.now 0) (constant_text (six_here six.now 0)) result }
{
    let from = skipped(six);
    let point = from + 1;
    Layout {
        from,
        point,
        end: last(six, point),
        power: Some(2 * six[0] as usize + DIGITS - from),
    }
}

// The layout of a constant: zero, from 0.01 to below 1E10 plain, else with a power of ten.
pub fn laid_out(six: &[u8; 6]) -> Layout
    ensures { Shaped (digits_here six.now 0) (constant_text (six_here six.now 0)) result }
{
    let first = six[0];
    if first == 0 {
        return Layout {
            from: 0,
            point: 0,
            end: 0,
            power: None,
        };
    }
    if first < PLAIN_LEAST {
        return powered(six);
    }
    if PLAIN_MOST < first {
        return powered(six);
    }
    plain(six)
}

// The length of digits from one place to another: `none` if there are none, else `more` bytes more.
pub fn part_size(from: usize, to: usize, none: usize, more: usize) -> usize
    requires { (to ≤ 10) × (none ≤ 1) × (more ≤ 1) }
    ensures { (result ≡ part_size from to none more) × (result ≤ 11) }
{
    if from < to { to - from + more } else { none }
}

// The length of a text that is laid out so.
pub fn size(x: Layout) -> usize
    ensures { result ≡ size_of x }
{
    let digits = part_size(x.from, x.point, 1, 0) + part_size(x.point, x.end, 0, 1);
    match x.power {
        Some(_) => digits + 4,
        None => digits,
    }
}

// Writes digits from one place to another.
pub fn write_digits(six: &[u8; 6], from: usize, to: usize, out: &mut [u8], n: usize)
    requires { (from ≤ to) × (to ≤ 10) × (n ≤ length out.old + 11) }
    ensures { out.new ≡ sets out.old n (slice from to (digits_here six.now 0)) }
{
    for i in from..to {
        buffers::put(out, n + (i - from), digit(six, i));
    }
}

// Writes the digits before the point, and returns the place after them.
pub fn write_whole(six: &[u8; 6], x: Layout, out: &mut [u8], n: usize) -> usize
    requires { n ≤ length out.old }
    ensures { Wrote n out.old out.new (lead (slice x.from x.point (digits_here six.now 0))) result }
{
    if x.point <= x.from {
        buffers::put(out, n, b'0');
        return n + 1;
    }
    write_digits(six, x.from, x.point, out, n);
    n + (x.point - x.from)
}

// Writes a point and the digits after it, and returns the place after them.
pub fn write_fraction(six: &[u8; 6], x: Layout, out: &mut [u8], n: usize) -> usize
    requires { n ≤ length out.old + 10 }
    ensures { Wrote n out.old out.new (with_point (slice x.point x.end (digits_here six.now 0))) result }
{
    if x.end <= x.point {
        return n;
    }
    buffers::put(out, n, b'.');
    write_digits(six, x.point, x.end, out, n + 1);
    n + 1 + (x.end - x.point)
}

// Writes E, a sign and two digits.
pub fn write_exponent(out: &mut [u8], n: usize, sign: u8, x: usize)
    requires { (x < 400) × (n ≤ length out.old + 21) }
    ensures { out.new ≡ sets out.old n (69 ∷ sign ∷ (48 + x / 10) ∷ (48 + x % 10) ∷ []) }
{
    let tens = b'0' + (x / 10) as u8;
    let ones = b'0' + (x % 10) as u8;
    buffers::put(out, n, b'E');
    buffers::put(out, n + 1, sign);
    buffers::put(out, n + 2, tens);
    buffers::put(out, n + 3, ones);
}

// Writes the power of ten, if there is one, and returns the place after it.
pub fn write_power(x: Layout, out: &mut [u8], n: usize) -> usize
    requires { n ≤ length out.old + 21 }
    ensures { Wrote n out.old out.new (power_part x.power) result }
{
    let Some(power) = x.power else { return n };
    if UNIT <= power {
        write_exponent(out, n, b'+', power - UNIT);
    } else {
        write_exponent(out, n, b'-', UNIT - power);
    }
    n + 4
}
