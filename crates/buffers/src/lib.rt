// Total helpers on numbers and byte slices: the lesser of two numbers, one byte read or written, bytes copied, tests of a byte, the end of a run
// of bytes, and the number that digits write.
#![tactic(auto)]

ghost use Rattle.std.specs.Prelude.{◌≡◌, ◌+◌, ◌-◌, ◌≤◌, min, length, get_or, set, take, drop};
ghost use Rattle.std.specs.List.{take_while};
ghost use Rattle.std.proofs.lemmas.List.Edits.{sets};
ghost use Rattle.paper.specs.Bytes.{run, digit?, letter?, letter_or_digit?};
ghost use Rattle.paper.specs.Items.{string_byte?};
ghost use Rattle.paper.specs.Constants.{value};
ghost use Rattle.buffers.specs.Numbers.{capped, WithDigit};
ghost use Rattle.buffers.specs.Runs.{test_of};

// The lesser of two numbers.
pub fn lesser(a: usize, b: usize) -> usize
    ensures { result ≡ min a b }
{
    a.min(b)
}

// The byte at a place, 0 past the end.
pub fn byte_at(s: &[u8], at: usize) -> u8
    ensures { result ≡ get_or s.now at 0 }
{
    s.get(at).copied().unwrap_or(0)
}

// Puts a byte at a place, and nothing past the end.
pub fn put(out: &mut [u8], at: usize, b: u8)
    ensures { out.new ≡ set out.old at b }
{
    if at < out.len() {
        out[at] = b;
    }
}

// Copies bytes to a place, as many as fit.
// Stays a loop over places: the library's copy_from_slice is compiled to a call of memmove, which an archive for C would need from outside.
pub fn copy(out: &mut [u8], at: usize, src: &[u8])
    ensures { out.new ≡ sets out.old at src.now }
{
    let size = src.len().min(out.len().saturating_sub(at));
    for i in 0..size {
        out[at + i] = src[i];
    }
}

// Whether a byte is one of 0 to 9.
pub fn is_digit(b: u8) -> bool
    ensures { result ≡ digit? b }
{
    matches!(b, b'0'..=b'9')
}

// Whether a byte is one of A to Z.
pub fn is_letter(b: u8) -> bool
    ensures { result ≡ letter? b }
{
    matches!(b, b'A'..=b'Z')
}

// Whether a byte is one of those that names are made of.
pub fn is_letter_or_digit(b: u8) -> bool
    ensures { result ≡ letter_or_digit? b }
{
    is_digit(b) || is_letter(b)
}

// Whether a byte may stand in a quoted string: neither a quote nor 9B.
fn is_string_byte(b: u8) -> bool
    ensures { result ≡ string_byte? b }
{
    !matches!(b, b'"' | 0x9B)
}

// What a run of bytes is made of.
// Stays an enum: under a closure in its place no clause could say which bytes a run has until each caller proved it of its own closure, and `Run::Digits` says it.
#[derive(Clone, Copy)]
pub enum Run {
    Blanks,
    Digits,
    NameBytes,
    StringBytes,
    RawBytes,
}

// Whether a byte may stand in a run.
fn passes(kind: Run, b: u8) -> bool
    ensures { result ≡ test_of kind b }
{
    match kind {
        Run::Blanks => b == b' ',
        Run::Digits => is_digit(b),
        Run::NameBytes => is_letter_or_digit(b),
        Run::StringBytes => is_string_byte(b),
        Run::RawBytes => b != 0x9B,
    }
}

// How many bytes at the front of a slice are a run of a kind.
fn run_size(s: &[u8], kind: Run) -> usize
    ensures { result ≡ length (take_while (test_of kind) s.now) }
{
    s.iter().take_while(|b| passes(kind, **b)).count()
}

// The end of the longest run of a kind from a place on.
pub fn run_end(s: &[u8], from: usize, kind: Run) -> usize
    ensures { (result ≡ from + run (test_of kind) (drop from s.now)) × (from ≤ length s.now → result ≤ length s.now) }
{
    from + run_size(&s[from.min(s.len())..], kind)
}

// The first n bytes of a slice, or all of it where it has fewer.
pub fn front<'a>(s: &'a [u8], n: usize) -> &'a [u8]
    ensures { result.now ≡ take n s.now }
{
    &s[..n.min(s.len())]
}

// Stands for any number that is not below it.
pub const TOO_GREAT: usize = 0x8000000000000000;

// A digit's worth.
fn worth(b: u8) -> usize
    ensures { (result ≡ b - 48) × (result ≤ 255) }
{
    usize::from(b.saturating_sub(b'0'))
}

// A number with one digit more, or TOO_GREAT where the number is too great for one.
fn with_digit(n: usize, b: u8) -> usize
    ensures { WithDigit n b result }
{
    if n <= TOO_GREAT / 10 {
        n * 10 + worth(b)
    } else {
        TOO_GREAT
    }
}

// The number that decimal digits write, or TOO_GREAT where it is not below that.
pub fn decimal(digits: &[u8]) -> usize
    ensures { result ≡ capped (value 0 digits.now) }
{
    let mut n: usize = 0;
    for b in digits {
        n = with_digit(n, *b);
    }
    n.min(TOO_GREAT)
}
