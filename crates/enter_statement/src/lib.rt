// What follows the first item of a statement, up to its end: items are taken by the grammar's table, terms by their own reader.
#![tactic(auto)]

ghost use Rattle.std.specs.Prelude.{◌≡◌, true, false, List, [], ◌∷◌, ℕ, ◌+◌, ◌*◌, ◌≤◌, T, length};
ghost use Rattle.paper.specs.Frames.{want_operand, want_after_then};
ghost use Rattle.paper.specs.Machine.{took, step};
ghost use Rattle.paper.specs.Grammar.{look};
ghost use Rattle.grammar.specs.Stack.{stack, gives_of};
ghost use Rattle.enter_item.specs.Says.{env_of, Asks};
ghost use Rattle.enter_item.specs.Sees.{Shows};
ghost use Rattle.enter_statement.specs.Ends.{Ends};
ghost use Rattle.enter_statement.specs.Stacks.{good?, fine?};
ghost use Rattle.enter_statement.specs.Moves.{Passes, Moves};

use enter_item::{Draft, Seen, Spot, Text, see};
use enter_term::term;
use grammar::{Taken, given_operator};
use refusals::{Refusal, RefusedAt};
use tokens::class;

// How the rest of a statement ends: where the next statement begins, or where the line's bytes end.
#[derive(Clone, Copy)]
pub enum Ended {
    More(Spot),
    Last(Spot),
}

// What a step comes to: it goes on from a place with so many frames, or the rest is read.
// Stays an enum of its own: neither case is a failure, as the Err of a Result would be.
#[derive(Clone, Copy)]
pub enum Moved {
    On(Spot, usize),
    End(Ended),
}

// The frame of a term.
// Stays a number, as the next one does: the grammar's table, whose clauses speak of numbers, is looked up by it.
const WANT_OPERAND: u8 = 5;

// The frame of a statement's end.
const WANT_END: u8 = 2;

// As long as the deepest stack of frames that a text of 120 bytes can need: no item needs more than nine frames for each of its bytes.
pub const DEEPEST: usize = 1104;

// An item that a frame takes, written as is given for it; or its refusal as out of range.
fn pass(text: Text, seen: Seen, gives: u8, q: Spot, draft: &mut Draft) -> Result<Spot, RefusedAt>
    requires { (Asks (env_of text) q draft.old) × (Shows text.part.now q.at false seen) × (T (fine? seen.class (gives_of gives))) }
    ensures { Passes text.entry.part.now text.entry.offset text.entry.names.now seen (gives_of gives) q draft.old draft.new result }
{
    let it = seen.item;
    let end = it.end;
    let found = seen.class;
    match found {
        class::NUMBER => draft.constant(text, it, q),
        class::QUOTED => Ok(draft.quoted(text, it, q)),
        _ => {
            if found <= class::ARRAY {
                Ok(draft.variable(text, it, q))
            } else {
                Ok(draft.token(q, end, given_operator(gives, seen.own)))
            }
        }
    }
}

// After THEN: a constant, which ends the statement, or another statement.
fn after_then(text: Text, q: Spot, draft: &mut Draft, frames: &mut [u8]) -> Result<Moved, RefusedAt>
    requires { (Asks (env_of text) q draft.old) × (1 ≤ length frames.old) }
    ensures { Moves (want_after_then ∷ []) true 1 (env_of text.entry) q draft.old draft.new frames.new result }
{
    let seen = see(text.part, q.at, true);
    match seen.class {
        class::NUMBER => {
            let p = draft.constant(text, seen.item, q)?;
            frames[0] = WANT_END;
            Ok(Moved::On(p, 1))
        }
        _ => Ok(Moved::End(Ended::More(q))),
    }
}

// An item that a stack took: written, with what follows a colon, THEN and the line's end.
fn taken(
    text: Text,
    seen: Seen,
    t: Taken,
    q: Spot,
    draft: &mut Draft,
    frames: &mut [u8],
) -> Result<Moved, RefusedAt>
    requires { (Asks (env_of text) q draft.old) × (Shows text.part.now q.at false seen) × (1 ≤ length frames.old)
        × ((fs : List ℕ) × ((T (good? fs)) × (step look fs seen.class ≡ took (gives_of t.gives) (stack frames.old t.depth)))) }
    ensures { (fs : List ℕ) (d : ℕ) → T (good? fs) → step look fs seen.class ≡ took (gives_of t.gives) (stack frames.old t.depth) → t.depth ≤ d + 8
        → Moves fs false d (env_of text.entry) q draft.old draft.new frames.new result }
{
    let it = seen.item;
    let end = it.end;
    let found = seen.class;
    match found {
        class::COLON => Ok(Moved::End(Ended::More(draft.token(q, end, seen.own)))),
        class::LINE_END => Ok(Moved::End(Ended::Last(draft.token(q, end, seen.own)))),
        class::THEN_WORD => {
            let p = draft.token(q, end, seen.own);
            after_then(text, p, draft, frames)
        }
        _ => {
            let p = pass(text, seen, t.gives, q, draft)?;
            Ok(Moved::On(p, t.depth))
        }
    }
}

// The most opening parentheses for which terms are read by their own reader, which calls itself for each of them.
const FEW: usize = 2;

// Whether more than FEW opening parentheses stand in a text.
fn nests(part: &[u8]) -> bool {
    FEW < part.iter().filter(|b| **b == b'(').count()
}

// Whether the reader of terms is to read a frame: it wants a term, and the text does not nest. The table reads all others, with no deeper calls.
// Stays a test of a flag: a closure for the step would take all that both steps take, and choose between them no plainer.
fn by_term(frame: u8, nested: bool) -> bool
    ensures { result ≡ true → frame ≡ want_operand }
{
    !nested && frame == WANT_OPERAND
}

// One step: a term, if its own reader is to read it, or else one item.
fn advance(
    text: Text,
    q: Spot,
    draft: &mut Draft,
    frames: &mut [u8],
    depth: usize,
    nested: bool,
) -> Result<Moved, RefusedAt>
    requires { (Asks (env_of text) q draft.old) × (T (good? (stack frames.old depth))) × (depth + 8 ≤ length frames.old) }
    ensures { Moves (stack frames.old depth) false depth (env_of text.entry) q draft.old draft.new frames.new result }
{
    let below = depth - 1;
    if by_term(frames[below], nested) {
        let p = term(text, q, draft)?;
        return Ok(Moved::On(p, below));
    }
    let seen = see(text.part, q.at, false);
    let Some(t) = grammar::take_item(frames, depth, seen.class) else {
        return Err(text.refuse(Refusal::NoReading, seen.item.at));
    };
    taken(text, seen, t, q, draft, frames)
}

// Reads on with a stack of frames until the statement ends.
// Stays a buffer with a depth beside it: the clause of `grammar::take_item`, which moves the stack on, is about both.
pub fn follow(
    text: Text,
    start: Spot,
    draft: &mut Draft,
    frames: &mut [u8],
    wanted: usize,
) -> Result<Ended, RefusedAt>
    requires { (Asks (env_of text) start draft.old) × (T (good? (stack frames.old wanted))) × (wanted ≤ 9 + 9 * start.at) × (1104 ≤ length frames.old) }
    ensures { Ends (stack frames.old wanted) (env_of text.entry) start draft.old draft.new result }
{
    let mut q = start;
    let mut depth = wanted;
    let nested = nests(text.part);
    loop {
        match advance(text, q, draft, frames, depth, nested)? {
            Moved::On(p, d) => {
                q = p;
                depth = d;
            }
            Moved::End(ended) => return Ok(ended),
        }
    }
}
