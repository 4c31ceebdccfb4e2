// Names as they lie in a table: one after the other, and which of them a name is.
ghost use Rattle.std.specs.Prelude.{◌≡◌, ◌≤◌, length};
ghost use Rattle.std.specs.Iterator.{YieldsFirstBy, item_count};
ghost use Rattle.paper.specs.Names.{names_in};
ghost use Rattle.names_form.specs.Answers.{Finds};
ghost use Rattle.names_form.specs.Names.{spelling, coming};
ghost use Rattle.names_form.specs.Tables.{cleared, first_size};

use crate::shape::Spelling;

// A byte with its top bit cleared.
pub fn clear(b: u8) -> u8
    ensures { result ≡ cleared b }
{
    if 128 <= b { b - 128 } else { b }
}

// How many bytes the first name of some bytes has: to the first byte with its top bit set, or to the end.
pub fn first_size(bytes: &[u8]) -> usize
    ensures { (result ≡ first_size bytes.now) × (result ≤ length bytes.now) }
{
    for (i, b) in bytes.iter().enumerate() {
        if 128 <= *b {
            return i + 1;
        }
    }
    bytes.len()
}

// The names of some bytes, one after the other.
#[derive(Clone, Copy, Drop)]
pub struct Names<'a> {
    rest: &'a [u8],
}

impl<'a> Iterator for Names<'a> {
    type Item = Spelling<'a>;

    ghost next_gives = { YieldsFirstBy spelling coming };

    ghost remaining = { item_count coming };

    fn next(&mut self) -> Option<Spelling<'a>> {
        let (name, rest) = self.rest.split_at(first_size(self.rest));
        let (last, front) = name.split_last()?;
        self.rest = rest;
        Some(Spelling {
            front,
            last: clear(*last),
        })
    }
}

// The names of some bytes.
pub fn names_in(bytes: &[u8]) -> Names
    ensures { coming result ≡ names_in bytes.now }
{
    Names { rest: bytes }
}

// Which name of a table a name is, or how many names there are where it is none of them.
pub fn find(table: &[u8], name: Spelling) -> Result<usize, usize>
    ensures { Finds (names_in table.now) (spelling name.entry) result }
{
    // Stays counted by hand: where none is the name, the count itself is the answer, and `position` would have to walk the names again for it.
    let mut count: usize = 0;
    for known in names_in(table) {
        if known == name {
            return Ok(count);
        }
        count += 1;
    }
    Err(count)
}
