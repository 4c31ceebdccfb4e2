// Readers of single items: each reads one item in a part of the text, writes its tokens to the line and adds its name.
#![tactic(auto)]

mod kinds;

ghost use Rattle.std.specs.Prelude.{◌≡◌, Bool, false, List, ◌++◌, ℕ, ◌+◌, ◌≤◌, ◌<◌, length, take, set};
ghost use Rattle.paper.specs.Tokens.{class};
ghost use Rattle.paper.specs.Names.{names_in};
ghost use Rattle.paper.specs.Grammar.{itself};
ghost use Rattle.enter_item.specs.Draft.{low};
ghost use Rattle.enter_item.specs.Says.{env, env_of, mem, spot, item_of, Asks, Took, Expects, VariableWritten, Counts};
ghost use Rattle.names_numbered.specs.Answers.{Numbers};
ghost use Rattle.enter_scan.specs.Sees.{Sees, token_at};
ghost use Rattle.enter_item.specs.LeafLaws.{NameSeen, spelling};
ghost use Rattle.enter_item.specs.Sees.{Shows};
ghost use Rattle.enter_item.specs.Tests.{compares?};
ghost use Rattle.enter_item.specs.TookLaws.{shifted};

use enter_scan::Item;
use names_numbered::Numbered;
use refusals::{Refusal, RefusedAt};
use tokens::{OperatorToken, TO_PREFIX, TO_STRINGS, class};

// How much scratch the readers have for a line: as many bytes as a stored line may have.
pub const LINE_ROOM: usize = 255;

// How much scratch they have for the names new in a line: two bytes for each byte of the longest text.
pub const NAMES_ROOM: usize = 240;

// The token of the variable with number 0; from the first number with a token of two bytes on, the byte that this begins with.
const FIRST_VARIABLE: u8 = 0x80;

const FIRST_LONG: usize = 128;

const LONG_FORM: u8 = 0;

// What the readers read: a part of a text, the place where it stands in the whole text, and the bytes of the names known before the line.
#[derive(Clone, Copy)]
pub struct Text<'a> {
    pub part: &'a [u8],
    pub offset: usize,
    pub names: &'a [u8],
}

impl Text<'_> {
    // The refusal of what stands at a place of the part, at its place in the whole text.
    pub fn refuse(self, refusal: Refusal, at: usize) -> RefusedAt
        requires { (at ≤ length self.part.now) × (self.offset + length self.part.now ≤ 120) }
        ensures { result ≡ record { refusal = refusal; place = self.entry.offset + at } }
    {
        RefusedAt {
            refusal,
            place: self.offset + at,
        }
    }
}

// What the readers write: the line, and the names that are new in it.
#[derive(Drop)]
pub struct Draft {
    pub line: [u8; LINE_ROOM],
    pub fresh: [u8; NAMES_ROOM],
}

// Where a reader stands, which it answers where it does not refuse: its place in the part, how many bytes of the line are written, and how many bytes of new names.
#[derive(Clone, Copy)]
pub struct Spot {
    pub at: usize,
    pub written: usize,
    pub named: usize,
}

// The next item, its class, and the number of its own token if it is a word or a symbol.
#[derive(Clone, Copy)]
pub struct Seen {
    pub item: Item,
    pub class: u8,
    pub own: u8,
}

// What stands next from a place on; `first` says: in statement position.
pub fn see(part: &[u8], at: usize, first: bool) -> Seen
    requires { at ≤ length part.now }
    ensures { Shows part.now at first result }
{
    let item = enter_scan::next_item(part, at, first);
    let kind = item.kind;
    let class = enter_scan::class_of(kind, first);
    let own = kinds::own_token(kind);
    Seen { item, class, own }
}

// The low byte of a number.
pub fn low_byte(n: usize) -> u8
    ensures { result ≡ low n }
{
    (n % 256) as u8
}

// Stays a line and new names as two slices in the readers from here to those of `Draft`: a draft's arrays have one length, and these readers promise the
// same to callers whose slices have any.

// One token is written, and what follows stands at `end`.
pub fn token(line: &mut [u8], q: Spot, end: usize, b: u8) -> Spot
    requires { q.written ≤ 1000 }
    ensures { (line.new ≡ set line.old q.written b) × (result ≡ spot end (q.written + 1) q.named) }
{
    buffers::put(line, q.written, b);
    Spot {
        at: end,
        written: q.written + 1,
        named: q.named,
    }
}

// Whether an item of a class compares.
pub fn compares(class: u8) -> bool
    ensures { result ≡ compares? class }
{
    matches!(class, class::COMPARISON | class::EQUALS)
}

// An operator's token that many on.
fn shifted(t: u8, by: u8) -> u8
    requires { by < 128 }
    ensures { result ≡ shifted by t }
{
    if t < 128 { t + by } else { t }
}

// The prefix operator of `+` or `-`.
pub fn prefix_operator(t: u8) -> u8
    ensures { result ≡ shifted 0x10 t }
{
    shifted(t, TO_PREFIX)
}

// The comparison of strings that a comparison stands for.
pub fn string_operator(t: u8) -> u8
    ensures { result ≡ shifted 0x12 t }
{
    shifted(t, TO_STRINGS)
}

// Where a reader stands after an item of a class, which is written as an operator; at another item a refusal at its place: no reading.
pub fn expect(
    text: Text,
    q: Spot,
    line: &mut [u8],
    wanted: u8,
    operator: OperatorToken,
) -> Result<Spot, RefusedAt>
    requires { (q.at ≤ length text.part.now) × (text.offset + length text.part.now ≤ 120) × (q.written ≤ 1000) }
    ensures { (n fresh : List ℕ) → Expects wanted operator.0 (env text.entry.part.now text.entry.offset n) q (mem line.old fresh) (mem line.new fresh) result }
{
    let seen = see(text.part, q.at, false);
    let it = seen.item;
    if seen.class != wanted {
        return Err(text.refuse(Refusal::NoReading, it.at));
    }
    Ok(token(line, q, it.end, operator.0))
}

// Where a reader stands after a constant, whose six bytes are written; of one out of range a refusal at its place.
pub fn constant(
    text: Text,
    it: Item,
    q: Spot,
    line: &mut [u8],
    fresh: &mut [u8],
) -> Result<Spot, RefusedAt>
    requires { (Asks (env_of text) q (mem line.old fresh.old)) × ((b : Bool) × ((Sees text.part.now q.at b it) × (class (token_at text.part.now b it) ≡ 3))) }
    ensures { (b : Bool) → Sees text.entry.part.now q.at b it → class (token_at text.entry.part.now b it) ≡ 3 → Counts (env_of text.entry) b (token_at text.entry.part.now b it) it.at it.end q (mem line.old fresh.old) (mem line.new fresh.new) result }
{
    let Some(six) = constant_bytes::six_bytes(&text.part[it.at..], kinds::numeral_of(it.kind))
    else {
        return Err(text.refuse(Refusal::OutOfRange, it.at));
    };
    buffers::put(line, q.written, OperatorToken::NUMBER.0);
    buffers::copy(line, q.written + 1, &six);
    Ok(Spot {
        at: it.end,
        written: q.written + 7,
        named: q.named,
    })
}

// A quoted string: its length and its bytes.
pub fn quoted(text: Text, it: Item, q: Spot, line: &mut [u8], fresh: &mut [u8]) -> Spot
    requires { (Asks (env_of text) q (mem line.old fresh.old)) × (Sees text.part.now q.at false it) × (class (token_at text.part.now false it) ≡ 4) }
    ensures { Took (env_of text.entry) false q (mem line.old fresh.old) itself (item_of (env_of text.entry) (token_at text.entry.part.now false it) it.at it.end) false result (mem line.new fresh.new) }
{
    let size = kinds::quoted_length(it.kind);
    let from = it.at + 1;
    let to = from + size;
    buffers::put(line, q.written, OperatorToken::STRING.0);
    buffers::put(line, q.written + 1, size as u8);
    buffers::copy(line, q.written + 2, &text.part[from..to]);
    Spot {
        at: it.end,
        written: q.written + 2 + size,
        named: q.named,
    }
}

// A name's number, and how many bytes the new names have with it.
pub fn name_number(text: Text, it: Item, fresh: &mut [u8], named: usize) -> Numbered
    requires { (NameSeen text.part.now it) × (named ≤ length fresh.old) }
    ensures { Numbers (names_in text.entry.names.now ++ names_in (take named fresh.old)) (spelling text.entry.part.now it) fresh.old named result fresh.new }
{
    let to = it.at + kinds::name_length(it.kind);
    names_numbered::number_of(
        text.names,
        text.names.len(),
        fresh,
        named,
        &text.part[it.at..to],
        kinds::is_array(it.kind),
    )
}

// Writes the token of the variable with a number to a place of the line, as far as bytes hold it, and answers how many bytes it has.
pub fn write_variable(line: &mut [u8], at: usize, number: usize) -> usize
    ensures { VariableWritten number line.old at line.new result }
{
    if number < FIRST_LONG {
        buffers::put(line, at, FIRST_VARIABLE + number as u8);
        return 1;
    }
    let token = [LONG_FORM, ((number - FIRST_LONG) % 256) as u8];
    buffers::copy(line, at, &token);
    2
}

// A variable: its name's number, and its name where it is new.
pub fn variable(text: Text, it: Item, q: Spot, line: &mut [u8], fresh: &mut [u8]) -> Spot
    requires { (Asks (env_of text) q (mem line.old fresh.old)) × (Sees text.part.now q.at false it) × (5 ≤ class (token_at text.part.now false it)) × (class (token_at text.part.now false it) ≤ 7) }
    ensures { Took (env_of text.entry) false q (mem line.old fresh.old) itself (item_of (env_of text.entry) (token_at text.entry.part.now false it) it.at it.end) false result (mem line.new fresh.new) }
{
    let found = name_number(text, it, fresh, q.named);
    let size = write_variable(line, q.written, found.number);
    Spot {
        at: it.end,
        written: q.written + size,
        named: found.size,
    }
}

// The readers over a draft; those above take a line and new names of any length.
impl Draft {
    // One token is written, and what follows stands at `end`.
    pub fn token(&mut self, q: Spot, end: usize, b: u8) -> Spot
        requires { q.written ≤ 1000 }
        ensures { (self.new ≡ mem (set self.old.line q.written b) self.old.fresh) × (result ≡ spot end (q.written + 1) q.named) }
    {
        token(&mut self.line, q, end, b)
    }

    // Where a reader stands after an item of a class, as `expect` says it.
    pub fn expect(
        &mut self,
        text: Text,
        q: Spot,
        wanted: u8,
        operator: OperatorToken,
    ) -> Result<Spot, RefusedAt>
        requires { (q.at ≤ length text.part.now) × (text.offset + length text.part.now ≤ 120) × (q.written ≤ 1000) }
        ensures { Expects wanted operator.0 (env_of text.entry) q self.old self.new result }
    {
        expect(text, q, &mut self.line, wanted, operator)
    }

    // Where a reader stands after a constant, as `constant` says it.
    pub fn constant(&mut self, text: Text, it: Item, q: Spot) -> Result<Spot, RefusedAt>
        requires { (Asks (env_of text) q self.old) × ((b : Bool) × ((Sees text.part.now q.at b it) × (class (token_at text.part.now b it) ≡ 3))) }
        ensures { (b : Bool) → Sees text.entry.part.now q.at b it → class (token_at text.entry.part.now b it) ≡ 3 → Counts (env_of text.entry) b (token_at text.entry.part.now b it) it.at it.end q self.old self.new result }
    {
        constant(text, it, q, &mut self.line, &mut self.fresh)
    }

    // A quoted string: its length and its bytes.
    pub fn quoted(&mut self, text: Text, it: Item, q: Spot) -> Spot
        requires { (Asks (env_of text) q self.old) × (Sees text.part.now q.at false it) × (class (token_at text.part.now false it) ≡ 4) }
        ensures { Took (env_of text.entry) false q self.old itself (item_of (env_of text.entry) (token_at text.entry.part.now false it) it.at it.end) false result self.new }
    {
        quoted(text, it, q, &mut self.line, &mut self.fresh)
    }

    // A variable: its name's number, and its name where it is new.
    pub fn variable(&mut self, text: Text, it: Item, q: Spot) -> Spot
        requires { (Asks (env_of text) q self.old) × (Sees text.part.now q.at false it) × (5 ≤ class (token_at text.part.now false it)) × (class (token_at text.part.now false it) ≤ 7) }
        ensures { Took (env_of text.entry) false q self.old itself (item_of (env_of text.entry) (token_at text.entry.part.now false it) it.at it.end) false result self.new }
    {
        variable(text, it, q, &mut self.line, &mut self.fresh)
    }
}
