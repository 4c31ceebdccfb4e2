// What a name may be: its shape, and whether it is a word.
ghost use Rattle.std.specs.Prelude.{◌≡◌, ◌||◌, ◌<◌, eqb, get_or, length, MatchOption};
ghost use Rattle.paper.specs.Bytes.{letter_or_digit?, every};
ghost use Rattle.paper.specs.Words.{reserved?, statement_word?};
ghost use Rattle.paper.specs.Tokens.{by_kind};
ghost use Rattle.paper.specs.Names.{name?, less_open};
ghost use Rattle.names_form.specs.Names.{spelling};

// Whether a name may end with a byte: a letter or digit, `$` or `(`.
fn ends_name(b: u8) -> bool
    ensures { result ≡ letter_or_digit? b || (eqb b 36 || eqb b 40) }
{
    buffers::is_letter_or_digit(b) || b == b'$' || b == b'('
}

// Whether bytes are letters and digits only.
fn are_name_bytes(bytes: &[u8]) -> bool
    ensures { result ≡ every letter_or_digit? bytes.now }
{
    bytes.iter().all(|b| buffers::is_letter_or_digit(*b))
}

// As long as the longest word.
const LONGEST_WORD: usize = 8;

// A name: its bytes before the last, and its last.
#[derive(Clone, Copy, PartialEq, Eq)]
pub struct Spelling<'a> {
    pub front: &'a [u8],
    pub last: u8,
}

impl<'a> Spelling<'a> {
    // Its first byte.
    fn first(self) -> u8
        ensures { result ≡ get_or (spelling self.entry) 0 0 }
    {
        match self.front {
            [] => self.last,
            [first, ..] => *first,
        }
    }

    // How many bytes it has.
    pub fn size(self) -> usize
        ensures { result ≡ length (spelling self.entry) }
    {
        self.front.len() + 1
    }

    // How many bytes it has less its `(`.
    pub fn bare_size(self) -> usize
        ensures { result ≡ length (less_open (spelling self.entry)) }
    {
        match self.last {
            b'(' => self.front.len(),
            _ => self.size(),
        }
    }

    // Of three values that of its kind: a number's, a string's or an array's.
    pub fn by_kind(self, number: u8, string: u8, array: u8) -> u8
        ensures { result ≡ by_kind (spelling self.entry) number string array }
    {
        match self.last {
            b'$' => string,
            b'(' => array,
            _ => number,
        }
    }

    // Whether a table may hold the name: a letter, then letters or digits, then possibly `$` or `(`.
    pub fn is_name(self) -> bool
        ensures { result ≡ name? (spelling self.entry) }
    {
        buffers::is_letter(self.first()) && are_name_bytes(self.front) && ends_name(self.last)
    }

    // The name less its `(`, written to a word's room; nothing if it is longer than every word.
    fn bare<'r>(self, room: &'r mut [u8; LONGEST_WORD]) -> Option<&'r [u8]>
        ensures { MatchOption result (8 < length (less_open (spelling self.entry))) (λ w. w.now ≡ less_open (spelling self.entry)) }
    {
        let size = self.front.len();
        if LONGEST_WORD < size {
            return None;
        }
        buffers::copy(room, 0, self.front);
        if self.last == b'(' {
            return Some(&room[..size]);
        }
        if size == LONGEST_WORD {
            return None;
        }
        room[size] = self.last;
        Some(&room[..size + 1])
    }

    // Whether the name less its `(` is a word operator or a function's name.
    pub fn is_reserved(self) -> bool
        ensures { result ≡ reserved? (less_open (spelling self.entry)) }
    {
        let mut room = [0; LONGEST_WORD];
        self.bare(&mut room)
            .is_some_and(|word| tokens::reserved_word(word).is_some())
    }

    // Whether the name less its `(` is a statement word.
    pub fn is_statement(self) -> bool
        ensures { result ≡ statement_word? (less_open (spelling self.entry)) }
    {
        let mut room = [0; LONGEST_WORD];
        self.bare(&mut room)
            .is_some_and(|word| tokens::statement_word(word).is_some())
    }
}
