// Marks: each name has a place and a sign, made of its bytes by mixing them. Where the mark at a name's place is neither its sign nor that of many
// names, the name is none of those that were marked.
ghost use Rattle.std.specs.Prelude.{◌≡◌, ◌<◌, take};
ghost use Rattle.paper.specs.Names.{names_in, known?};
ghost use Rattle.names_form.specs.Names.{spelling};
ghost use Rattle.names_sound.specs.Marks.{mixes, mixed, mix_of, place_in, sign_in, one_more, Marks};

use names_form::shape::Spelling;
use names_form::table;

// How many places there are, and how many mixes.
pub(crate) const PLACES: usize = 2048;

const MIXES: usize = 262144;

// The mark of a place with more than one name.
const MANY: u8 = 255;

// The mix of some bytes with one byte more, from their own mix.
fn mix(of: usize, b: u8) -> usize
    requires { of < mixes }
    ensures { result ≡ mixed of b }
{
    (of * 35 + b as usize) % MIXES
}

// The mix of a name.
fn mix_of(name: Spelling) -> usize
    ensures { result ≡ mix_of (spelling name.entry) }
{
    let mut of: usize = 0;
    for b in name.front {
        of = mix(of, *b);
    }
    mix(of, name.last)
}

// A name with its mix.
#[derive(Clone, Copy)]
pub(crate) struct Mixed<'a> {
    pub(crate) name: Spelling<'a>,
    mix: usize,
    ghost own: { mix ≡ mix_of (spelling name) },
}

impl<'a> Mixed<'a> {
    // The name with its mix.
    pub(crate) fn of(name: Spelling<'a>) -> Mixed<'a>
        ensures { result.name ≡ name.entry }
    {
        Mixed {
            name,
            mix: mix_of(name),
        }
    }

    // Its place.
    pub(crate) fn place(self) -> usize
        ensures { result ≡ place_in (mix_of (spelling self.entry.name)) }
    {
        self.mix % PLACES
    }

    // Its sign.
    fn sign(self) -> u8
        ensures { result ≡ sign_in (mix_of (spelling self.entry.name)) }
    {
        (self.mix / PLACES + 1) as u8
    }

    // The mark of its place with the name more, from the place's own.
    pub(crate) fn one_more(self, mark: u8) -> u8
        ensures { result ≡ one_more mark (mix_of (spelling self.entry.name)) }
    {
        if mark == 0 { self.sign() } else { MANY }
    }

    // Whether it is among the first so many names of some bytes, all of which are marked.
    pub(crate) fn is_known(self, bytes: &[u8], number: usize, marks: &[u8; PLACES]) -> bool
        requires { Marks marks.now (take number (names_in bytes.now)) }
        ensures { result ≡ known? (take number (names_in bytes.now)) (spelling self.entry.name) }
    {
        let mark = marks[self.place()];
        if mark != MANY && mark != self.sign() {
            return false;
        }
        let name = self.name;
        table::names_in(bytes)
            .take(number)
            .any(|known| known == name)
    }
}
