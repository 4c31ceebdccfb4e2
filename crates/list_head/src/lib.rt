// The head of a line, which is not the same for a stored line and for a direct one: the number, and what stands before the listing's first statement.
#![tactic(auto)]

ghost use Rattle.std.specs.Prelude.{◌≡◌, ◌≤◌, length};
ghost use Rattle.paper.specs.Line.{line_number};
ghost use Rattle.list_text.specs.Texts.{Writes};
ghost use Rattle.list_head.specs.Heads.{lawful_for, right_head?, head_for};

// The high byte of a direct line's number, and the first that is too great for a stored line's.
const DIRECT_HIGH: u8 = 128;

// Whether a line's number is one that its kind has: 32768 of a direct line, at most 32767 of a stored one.
pub fn is_lawful(line: &[u8], direct: bool) -> bool
    requires { 2 ≤ length line.now }
    ensures { result ≡ lawful_for direct (line_number line.now) }
{
    let high = line[1];
    if direct {
        high == DIRECT_HIGH && line[0] == 0
    } else {
        high < DIRECT_HIGH
    }
}

// Whether a line has the length that it says, and a number that its kind has.
pub fn is_right(line: &[u8], direct: bool) -> bool
    ensures { result ≡ right_head? (lawful_for direct) line.now }
{
    if line.len() < 3 {
        return false;
    }
    if line[2] as usize != line.len() {
        return false;
    }
    is_lawful(line, direct)
}

// Writes what stands before a listing's first statement to the front of a buffer, as much as fits, and returns its length.
pub fn write_head(line: &[u8], direct: bool, out: &mut [u8]) -> usize
    requires { 2 ≤ length line.now }
    ensures { Writes (head_for direct (line_number line.now)) 0 out.old result out.new }
{
    if direct {
        return 0;
    }
    list_text::write_head(line, out)
}
