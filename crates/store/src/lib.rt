// The store: lines end to end in a lent buffer, in rising order of their numbers.
#![tactic(auto)]

pub mod heads;

ghost use Rattle.std.specs.Prelude.{◌≡◌, pred, T, take};
ghost use Rattle.paper.specs.Store.{room, sound_lines, lines_in};
ghost use Rattle.store.specs.Walks.{passing_size, sound_lines_from, Within, start, walked_on, all_passed, counts_past};
ghost use Rattle.paper.specs.Files.{direct_whole?};
ghost use Rattle.store.specs.Answers.{place_of, sound_counts, found_answer, program_answer};

// The bytes that a store may use at most.
const MOST_ROOM: usize = 65535;

// The length of the shortest line.
const SHORTEST_LINE: usize = 6;

// The greatest number that a line may have.
pub const GREATEST_NUMBER: usize = 32767;

// The room of a store: its length, or the most that a store may use.
#[tactic(auto, using(crate::proofs::Walk::room_is))]
pub fn room_of(store: &[u8]) -> usize
    ensures { result ≡ room store.now }
{
    store.len().min(MOST_ROOM)
}

// The size of the line that some bytes begin with, if it is whole and its number is from `least` on and below `number`.
#[tactic(auto, using(crate::proofs::Walk::sizes))]
pub fn passing(rest: &[u8], least: usize, number: usize) -> Option<usize>
    ensures { result ≡ passing_size least number rest.now }
{
    let size = heads::size(rest);
    if size < SHORTEST_LINE || rest.len() < size {
        return None;
    }
    let own = heads::number(rest);
    if own <= GREATEST_NUMBER && least <= own && own < number {
        Some(size)
    } else {
        None
    }
}

// How far a walk over lines has come: its offset, how many lines it has passed, and the least number that the next one may have.
#[derive(Clone, Copy, Default)]
struct Walked {
    at: usize,
    lines: usize,
    least: usize,
}

// Goes on with a walk to the first line whose number is not below the one asked for, past whole lines whose numbers rise; or to a line that is not so.
fn first_not_below(lines: &[u8], walk: Walked, number: usize) -> Walked
    requires { Within walk lines.now }
    ensures { (result ≡ walked_on walk number lines.now) × (Within result lines.now) }
{
    let begin = walk.at;
    let mut rest = &lines[begin..];
    let mut count = walk.lines;
    let mut least = walk.least;
    // Stays a loop that is left with its value: document 01 has the search yield the offset so, and the lines end to end are no sequence to iterate over.
    let at = loop {
        let Some(size) = passing(rest, least, number) else {
            break lines.len() - rest.len();
        };
        least = heads::number(rest) + 1;
        count += 1;
        rest = &rest[size..];
    };
    Walked {
        at,
        lines: count,
        least,
    }
}

// Whether bytes are whole lines whose numbers rise, the first from `least` on.
#[tactic(auto, using(crate::proofs::Walk::rest_decides))]
pub fn sound_from(lines: &[u8], least: usize) -> bool
    ensures { result ≡ sound_lines_from least (lines_in lines.now) }
{
    let begin = Walked {
        least,
        ..Walked::default()
    };
    let walk = first_not_below(lines, begin, GREATEST_NUMBER + 1);
    walk.at == lines.len()
}

// The number of the last line that a walk has passed, 0 if it has passed none.
fn last_number(walk: Walked) -> usize
    ensures { result ≡ pred walk.least }
{
    walk.least.saturating_sub(1)
}

// What an editor's record keeps of a store: the bytes used, how many lines they are, and the greatest number of these, 0 if there is none.
#[derive(Clone, Copy, PartialEq, Eq)]
pub struct Counts {
    pub used: usize,
    pub lines: usize,
    pub greatest: usize,
}

impl From<Walked> for Counts {
    // What a record keeps of the lines that a walk has passed.
    fn from(walk: Walked) -> Counts
        ensures { result ≡ counts_past walk }
    {
        Counts {
            used: walk.at,
            lines: walk.lines,
            greatest: last_number(walk),
        }
    }
}

// Whether a walk past all numbers has come to the end of the bytes used, past as many lines as counted, with the greatest number last.
#[tactic(auto, unfolding(crate::specs::Walks::all_passed))]
fn agrees(counts: Counts, walk: Walked) -> bool
    ensures { result ≡ all_passed counts walk }
{
    counts == Counts::from(walk)
}

// Whether the used bytes of a store are whole lines in rising order, within the room, and the counts are theirs.
#[tactic(auto, using(crate::proofs::Walk::decides))]
pub fn sound(store: &[u8], counts: Counts) -> bool
    ensures { result ≡ sound_counts store.now counts }
{
    let used = counts.used;
    used <= room_of(store)
        && agrees(
            counts,
            first_not_below(&store[..used], Walked::default(), GREATEST_NUMBER + 1),
        )
}

// Where the line with a number begins, or would begin; how many bytes of it stand there, 0 if it is not stored. And the number of the line before it, 0
// if there is none.
// Stays a size and no Option of one: an edit subtracts the bytes that stand at the place, whether there are any or not.
#[derive(Clone, Copy)]
pub struct Place {
    pub number: usize,
    pub at: usize,
    pub size: usize,
    pub before: usize,
}

// The place of a line number among sound lines, to which a walk past the lines below it has come.
#[tactic(auto, using(crate::proofs::Search::place_same, crate::proofs::Search::place_other, crate::proofs::Walk::walk_inside, crate::specs::Rising::past))]
fn place_at(lines: &[u8], walk: Walked, number: usize) -> Place
    requires { (T (sound_lines (lines_in lines.now))) × (walk ≡ walked_on start number lines.now) }
    ensures { result ≡ place_of number (lines_in lines.now) }
{
    let at = walk.at;
    let rest = &lines[at..];
    let before = last_number(walk);
    let size = if heads::number(rest) == number {
        heads::size(rest)
    } else {
        0
    };
    Place {
        number,
        at,
        size,
        before,
    }
}

// The place of a line number in a sound store. No line is searched for above the greatest number: its place is the end.
#[tactic(auto, using(crate::proofs::Search::finds))]
pub fn find_sound(store: &[u8], counts: Counts, number: usize) -> Place
    requires { T (sound_counts store.now counts) }
    ensures { result ≡ place_of number (lines_in (take counts.used store.now)) }
{
    let used = counts.used;
    if counts.greatest < number {
        return Place {
            number,
            at: used,
            size: 0,
            before: counts.greatest,
        };
    }
    let lines = &store[..used];
    place_at(
        lines,
        first_not_below(lines, Walked::default(), number),
        number,
    )
}

// The place of a line number in a store, if that is sound and has these counts, in one walk over its lines: up to the place, and from there on.
#[tactic(auto, using(crate::proofs::Search::searches))]
pub fn find(store: &[u8], counts: Counts, number: usize) -> Option<Place>
    ensures { result ≡ found_answer store.now counts number }
{
    let used = counts.used;
    if room_of(store) < used {
        return None;
    }
    let lines = &store[..used];
    let below = first_not_below(lines, Walked::default(), number);
    let all = first_not_below(lines, below, GREATEST_NUMBER + 1);
    if agrees(counts, all) {
        Some(place_at(lines, below, number))
    } else {
        None
    }
}

// The number of a line without a number.
const DIRECT_NUMBER: usize = GREATEST_NUMBER + 1;

// Whether bytes are one whole line without a number.
#[tactic(auto, using(crate::proofs::Programs::directs))]
fn is_direct(line: &[u8]) -> bool
    ensures { result ≡ direct_whole? line.now }
{
    SHORTEST_LINE <= line.len()
        && heads::size(line) == line.len()
        && heads::number(line) == DIRECT_NUMBER
}

// What a record keeps of the lines that some bytes are, but for a last one without a number, if these are sound.
pub fn program_counts(lines: &[u8]) -> Option<Counts>
    ensures { result ≡ program_answer lines.now }
{
    let walk = first_not_below(lines, Walked::default(), DIRECT_NUMBER);
    let rest = &lines[walk.at..];
    if rest.is_empty() || is_direct(rest) {
        Some(Counts::from(walk))
    } else {
        None
    }
}
