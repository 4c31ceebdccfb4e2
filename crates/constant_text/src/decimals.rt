// A test of the decimal digits that bytes hold.
ghost use Rattle.std.specs.Prelude.{◌≡◌};
ghost use Rattle.paper.specs.Bytes.{every};
ghost use Rattle.constant_text.specs.Texts.{digits_most};

// Whether both digits of each byte are at most `most`. All bytes are looked at, without a branch for the digits of each.
pub fn digits_within(bytes: &[u8], most: u8) -> bool
    ensures { result ≡ every (digits_most most) bytes.now }
{
    let mut good = true;
    for b in bytes {
        good = good & (*b / 16 <= most) & (*b % 16 <= most);
    }
    good
}
