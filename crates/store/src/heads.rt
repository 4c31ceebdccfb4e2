// What stands at the head of a line: its number and its length.
ghost use Rattle.std.specs.Prelude.{◌≡◌, get_or};
ghost use Rattle.paper.specs.Line.{line_number};

use buffers::byte_at;

// The number of the line that some bytes begin with.
#[tactic(auto, unfolding(paper::specs::Line::line_number))]
pub fn number(s: &[u8]) -> usize
    ensures { result ≡ line_number s.now }
{
    u16::from_le_bytes([byte_at(s, 0), byte_at(s, 1)]) as usize
}

// The length byte of the line that some bytes begin with.
pub fn size(s: &[u8]) -> usize
    ensures { result ≡ get_or s.now 2 0 }
{
    byte_at(s, 2) as usize
}
