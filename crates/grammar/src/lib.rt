// The grammar as a table, and the stack of frames that reads items by it.
#![tactic(auto)]

mod rows;

ghost use Rattle.std.specs.Prelude.{◌≡◌, ◌+◌, ◌<◌, ◌≤◌, true, T, [], length};
ghost use Rattle.std.proofs.lemmas.List.Edits.{sets};
ghost use Rattle.paper.specs.Machine.{take};
ghost use Rattle.grammar.specs.Stack.{gives_of, Acts, Steps};
ghost use Rattle.grammar.specs.Joining.{joins?};
ghost use Rattle.paper.specs.Tokens.{operator};
ghost use Rattle.paper.specs.Grammar.{itself, given, look};
ghost use Rattle.laws.specs.Counts.{class_count};
ghost use Rattle.grammar.specs.Tables.{nine, says?};
ghost use Rattle.grammar.specs.Rows.{words, rests};

use tokens::{TO_PREFIX, TO_STRINGS, class};

// The act of a frame that leaves an item to the frame below.
const LEAVES: u8 = b'-';

// The act of a frame that refuses an item.
const REFUSES: u8 = b'.';

// The first act that takes an item; one before it that does not leave it refuses it.
const FIRST_ACT: u8 = b'0';

// What a frame does with items of a class. An entry for another class is another frame's.
fn act_of(frame: u8, class: u8) -> u8
    requires { class < class_count }
    ensures { T (says? words rests result (look frame class)) }
{
    let first = rows::first_of(frame);
    let entry = rows::entry_at(first + class);
    if entry / 256 == class as u16 {
        return (entry % 256) as u8;
    }
    if first < rows::REFUSING {
        return LEAVES;
    }
    REFUSES
}

// Writes the eight frames of a word and a ninth from a place of a buffer on, the lowest first. All nine are written, however few of them count: the compiler
// makes one write of the first eight.
fn put_frames(frames: &mut [u8], at: usize, word: u64, ninth: u8)
    requires { at + 9 ≤ length frames.old }
    ensures { frames.new ≡ sets frames.old at (nine word ninth) }
{
    frames[at..at + 8].copy_from_slice(&word.to_le_bytes());
    frames[at + 8] = ninth;
}

// What is given for an item that a stack took, by its number, and how many frames the stack has then.
#[derive(Clone, Copy)]
pub struct Taken {
    pub gives: u8,
    pub depth: usize,
}

// What a frame does with an item: takes it; leaves it; refuses it.
#[derive(Clone, Copy)]
pub enum Act {
    Took(Taken),
    Left,
    Refused,
}

// What the frame at a place does with an item of a class. If it takes the item, the frames that it wants stand from its place on.
fn act_at(frames: &mut [u8], at: usize, class: u8) -> Act
    requires { (at + 9 ≤ length frames.old) × (class < class_count) }
    ensures { Acts frames.old at class result frames.new }
{
    let act = act_of(frames[at], class);
    if act == LEAVES {
        return Act::Left;
    }
    if act < FIRST_ACT {
        return Act::Refused;
    }
    let rest = rows::rest_of(act);
    put_frames(frames, at, rows::word_of(act), (rest / 4096 % 64) as u8);
    Act::Took(Taken {
        gives: (rest % 64) as u8,
        depth: at + (rest / 64 % 64) as usize,
    })
}

// How the stack of the first frames of a buffer takes an item of a class, if it does: the last frame first; one that leaves the item hands it to
// the frame below.
pub fn take_item(frames: &mut [u8], depth: usize, class: u8) -> Option<Taken>
    requires { (depth + 8 ≤ length frames.old) × (class < class_count) }
    ensures { Steps frames.old depth class result frames.new }
{
    for at in (0..depth).rev() {
        match act_at(frames, at, class) {
            Act::Took(taken) => return Some(taken),
            Act::Left => {}
            Act::Refused => return None,
        }
    }
    None
}

// The frames that items meet most, by their numbers in the grammar.
const END: u8 = 2;

const OPERAND: u8 = 5;

const MORE_TERMS: u8 = 6;

const CLOSE: u8 = 9;

const COMMA: u8 = 34;

// Whether a frame is one of these and takes items of a class as they are, and then wants nothing.
#[inline]
fn is_last(frame: u8, class: u8) -> bool
    ensures { result ≡ true → look frame class ≡ take itself [] }
{
    match frame {
        END => class == class::LINE_END,
        OPERAND => matches!(class, class::NUMBER | class::NUMERIC_VARIABLE),
        CLOSE => class == class::CLOSE_SIGN,
        COMMA => class == class::COMMA,
        _ => false,
    }
}

// Whether items of a class join terms: `=`, comparisons, signs and factors, OR, AND.
#[inline]
pub fn joins_terms(class: u8) -> bool
    ensures { result ≡ joins? class }
{
    matches!(
        class,
        class::FACTOR_SIGN | class::PLUS_MINUS | class::COMPARISON | class::EQUALS | class::OR_AND
    )
}

// How a stack takes an item, as `take_item` says it; that its last frame takes the item and wants nothing is seen without the table.
// Stays a test and a subtraction, as in the next: by checked_sub the place of the last frame waits for the test's outcome, and a line of numbers takes an eighth more time.
#[inline]
fn take_last(frames: &mut [u8], depth: usize, class: u8) -> Option<Taken>
    requires { (depth + 8 ≤ length frames.old) × (class < class_count) }
    ensures { Steps frames.old depth class result frames.new }
{
    if depth == 0 {
        return None;
    }
    let top = depth - 1;
    if is_last(frames[top], class) {
        return Some(Taken {
            gives: 0,
            depth: top,
        });
    }
    take_item(frames, depth, class)
}

// The same; what most items meet is seen without the table: that more terms may follow, and then an item that joins them or another one.
#[inline(always)]
pub fn take_next(frames: &mut [u8], depth: usize, class: u8) -> Option<Taken>
    requires { (depth + 8 ≤ length frames.old) × (class < class_count) }
    ensures { Steps frames.old depth class result frames.new }
{
    if depth == 0 {
        return None;
    }
    let top = depth - 1;
    if frames[top] != MORE_TERMS {
        return take_last(frames, depth, class);
    }
    if joins_terms(class) {
        frames[depth] = OPERAND;
        return Some(Taken {
            gives: 0,
            depth: depth + 1,
        });
    }
    take_last(frames, top, class)
}

// The operator that is given for the operator `own`, by the number of what is given: for those below 128, as all are but the end of raw text.
pub fn given_operator(gives: u8, own: u8) -> u8
    ensures { own < 128 → operator result ≡ given (gives_of gives) (operator own) }
{
    match gives {
        0 => own,
        1 => std::num::wrapping_add_u8(own, TO_STRINGS),
        2 => std::num::wrapping_add_u8(own, TO_PREFIX),
        _ => gives,
    }
}
