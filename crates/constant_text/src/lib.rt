// Constants: six bytes that are right, and six bytes as text.
#![tactic(auto)]

ghost use Rattle.std.specs.Prelude.{◌≡◌, length, take, drop};
ghost use Rattle.std.proofs.lemmas.List.Edits.{sets};
ghost use Rattle.paper.specs.Constants.{right_constant?, constant_text};
ghost use Rattle.constant_text.specs.Texts.{six_here};

mod decimals;
mod layout;
mod texts;

use buffers::byte_at;

// The first byte of a constant that is not zero is 64 and its power of a hundred: -49 at least.
const FIRST_LEAST: u8 = 0x0f;

// And 48 at most.
const FIRST_MOST: u8 = 0x70;

// Whether six bytes stand at a place, and are those of a constant: zero, or a power byte and five bytes of decimal digits. All that is asked of a constant that is not
// zero is asked at once, without a branch for each.
pub fn is_right(s: &[u8], at: usize) -> bool
    ensures { result ≡ right_constant? (take 6 (drop at s.now)) }
{
    if s.len() < 6 {
        return false;
    }
    if s.len() - 6 < at {
        return false;
    }
    let first = s[at];
    let next = at + 1;
    let end = at + 6;
    if first == 0 {
        return decimals::digits_within(&s[next..end], 0);
    }
    let decimal = decimals::digits_within(&s[next..end], 9);
    (FIRST_LEAST <= first) & (first <= FIRST_MOST) & decimal & (s[next] != 0)
}

// The six bytes at a place; bytes past the end count as zeros.
fn six_at(s: &[u8], at: usize) -> [u8; 6]
    ensures { result ≡ six_here s.now at }
{
    if s.len() <= at {
        return [0; 6];
    }
    [
        byte_at(s, at),
        byte_at(s, at + 1),
        byte_at(s, at + 2),
        byte_at(s, at + 3),
        byte_at(s, at + 4),
        byte_at(s, at + 5),
    ]
}

// Writes the text of the six bytes at a place, as much of it as fits, and returns its length; bytes past the end count as zeros.
pub fn write_text(s: &[u8], at: usize, out: &mut [u8], n: usize) -> usize
    ensures { (result ≡ length (constant_text (six_here s.now at))) × (out.new ≡ sets out.old n (constant_text (six_here s.now at))) }
{
    let six = six_at(s, at);
    let layout = texts::laid_out(&six);
    if out.len() <= n {
        return texts::size(layout);
    }
    let point = texts::write_whole(&six, layout, out, n);
    let power = texts::write_fraction(&six, layout, out, point);
    let end = texts::write_power(layout, out, power);
    end - n
}
