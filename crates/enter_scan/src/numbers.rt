// Numbers: digits, point, exponent.
ghost use Rattle.std.specs.Prelude.{◌≡◌, ◌&&◌, ◌||◌, suc, ◌-◌, ◌<◌, eqb, length, take, drop};
ghost use Rattle.std.specs.Option.{unwrap_or};
ghost use Rattle.paper.specs.Bytes.{digit?};
ghost use Rattle.paper.specs.Constants.{value};
ghost use Rattle.paper.specs.Items.{sign_size, power_size};
ghost use Rattle.enter_scan.specs.Kinds.{digits_size, no_power, power_at, number_shape, item_with};

use crate::{Exponent, Item, Kind};
use buffers::{Run, byte_at, is_digit, run_end};
use constant_bytes::Numeral;

// Whether a number begins with two bytes: with a digit, or a point and a digit.
pub(crate) fn begins_number(b: u8, next: u8) -> bool
    ensures { result ≡ (digit? b || (eqb b 46 && digit? next)) }
{
    is_digit(b) || b == b'.' && is_digit(next)
}

// Past the point at a place and the digits after it, if one stands there.
fn past_fraction(part: &[u8], point: usize) -> usize
    ensures { result ≡ digits_size part.now point }
{
    if byte_at(part, point) == b'.' {
        return run_end(part, point + 1, Run::Digits);
    }
    point
}

// How many bytes stand after the one at `point` and before `end`.
fn after_point(point: usize, end: usize) -> usize
    ensures { result ≡ end - suc point }
{
    if point < end { end - point - 1 } else { 0 }
}

// The length of an exponent's sign.
fn sign_length(b: u8) -> usize
    ensures { result ≡ sign_size b }
{
    match b {
        b'+' | b'-' => 1,
        _ => 0,
    }
}

// How many digits of an exponent stand at a place: none, one or two.
fn power_length(part: &[u8], at: usize) -> usize
    ensures { result ≡ power_size (drop at part.now) }
{
    if is_digit(byte_at(part, at)) {
        if is_digit(byte_at(part, at + 1)) {
            2
        } else {
            1
        }
    } else {
        0
    }
}

// The value of the digits of an exponent, of which there are one or two.
fn power_value(part: &[u8], at: usize, count: usize) -> u8
    requires { (count ≡ power_size (drop at part.now)) × (0 < count) }
    ensures { result ≡ value 0 (take count (drop at part.now)) }
{
    let tens = byte_at(part, at) - 48;
    if count == 1 {
        return tens;
    }
    tens * 10 + (byte_at(part, at + 1) - 48)
}

// No exponent.
const NO_EXPONENT: Exponent = Exponent {
    size: 0,
    down: false,
    power: 0,
};

// The exponent at a place: E, a sign if there is one, and one or two digits; none if they do not stand there.
fn exponent(part: &[u8], at: usize) -> Option<Exponent>
    ensures { unwrap_or result no_power ≡ power_at part.now at }
{
    if byte_at(part, at) != b'E' {
        return None;
    }
    let sign = byte_at(part, at + 1);
    let digits = at + 1 + sign_length(sign);
    let count = power_length(part, digits);
    if count == 0 {
        return None;
    }
    Some(Exponent {
        size: digits - at + count,
        down: sign == b'-',
        power: power_value(part, digits, count),
    })
}

// The item of a number: digits with at most one point, and an exponent if one follows.
pub(crate) fn number_item(part: &[u8], at: usize) -> Item
    requires { at < length part.now }
    ensures { result ≡ item_with (number_shape (drop at part.now)) at }
{
    let point = run_end(part, at, Run::Digits);
    let end = past_fraction(part, point);
    let fraction = after_point(point, end);
    let found = exponent(part, end).unwrap_or(NO_EXPONENT);
    Item {
        kind: Kind::Number(Numeral {
            whole: point - at,
            fraction,
            down: found.down,
            power: found.power,
        }),
        at,
        end: end + found.size,
    }
}
