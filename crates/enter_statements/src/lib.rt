// Statements, one after another: the first item of each, its rest, and its offset.
#![tactic(auto)]

ghost use Rattle.std.specs.Prelude.{◌≡◌, true, [], ◌∷◌, ◌+◌, ◌≤◌, ◌<◌, length, drop};
ghost use Rattle.paper.specs.Classes.{remark};
ghost use Rattle.paper.specs.Tokens.{class};
ghost use Rattle.paper.specs.Items.{raw_at};
ghost use Rattle.paper.specs.Frames.{want_raw_text, want_raw_end};
ghost use Rattle.paper.specs.Grammar.{itself};
ghost use Rattle.grammar.specs.Stack.{stack};
ghost use Rattle.enter_scan.specs.Sees.{token_at};
ghost use Rattle.enter_item.specs.Says.{env_of, Asks};
ghost use Rattle.enter_item.specs.Sees.{Shows};
ghost use Rattle.enter_statement.specs.Ends.{Reads};
ghost use Rattle.enter_statements.specs.Lines.{Began, States, Tells, rest_items};
ghost use Rattle.enter_statement.specs.Stacks.{Begins};

use enter_item::{Draft, Seen, Spot, Text, low_byte, name_number, see, write_variable};
use enter_statement::{DEEPEST, Ended};
use refusals::{Refusal, RefusedAt};
use tokens::{OperatorToken, StatementToken, class};

// REM and DATA: the text that follows, or its refusal at a 9B in it.
fn raw(text: Text, q: Spot, draft: &mut Draft) -> Result<Ended, RefusedAt>
    requires { Asks (env_of text) q draft.old }
    ensures { Reads (want_raw_text ∷ want_raw_end ∷ []) (raw_at (text.entry.offset + q.at) (drop q.at text.entry.part.now)) (env_of text.entry) q draft.old draft.new result }
{
    let raw = enter_scan::raw_text(text.part, q.at);
    let from = raw.from;
    let end = raw.end;
    if end < text.part.len() {
        return Err(text.refuse(Refusal::NoReading, end));
    }
    let written = q.written;
    let size = end - from;
    buffers::copy(&mut draft.line, written, &text.part[from..end]);
    buffers::put(&mut draft.line, written + size, OperatorToken::RAW_END.0);
    Ok(Ended::Last(Spot {
        at: end,
        written: written + size + 1,
        named: q.named,
    }))
}

// What follows the first item of a statement: raw text after REM and DATA, what a stack of frames reads after all others.
fn rest(
    text: Text,
    found: u8,
    q: Spot,
    draft: &mut Draft,
    frames: &mut [u8],
    depth: usize,
) -> Result<Ended, RefusedAt>
    requires { (Asks (env_of text) q draft.old) × (Begins found itself (stack frames.old depth)) × (depth ≤ 9) × (1104 ≤ length frames.old) }
    ensures { Reads (stack frames.old depth) (rest_items (env_of text.entry) found q.at) (env_of text.entry) q draft.old draft.new result }
{
    if found == class::REMARK {
        raw(text, q, draft)
    } else {
        enter_statement::follow(text, q, draft, frames, depth)
    }
}

// The first item of a statement: a 0 where its offset is to stand, and its word's token or LET without the word and the variable.
fn begin(text: Text, seen: Seen, q: Spot, draft: &mut Draft) -> Spot
    requires { (Asks (env_of text) q draft.old) × (Shows text.part.now q.at true seen) × (seen.class < remark → (8 ≤ seen.class) × (seen.class ≤ 10)) }
    ensures { Began (env_of text.entry) q draft.old (token_at text.entry.part.now true seen.item) seen.item.end result draft.new }
{
    let it = seen.item;
    let end = it.end;
    let written = q.written;
    buffers::put(&mut draft.line, written, 0);
    if seen.class < class::REMARK {
        let number = name_number(text, it, &mut draft.fresh, q.named);
        buffers::put(
            &mut draft.line,
            written + 1,
            StatementToken::LET_WITHOUT_WORD.0,
        );
        let size = write_variable(&mut draft.line, written + 2, number.number);
        Spot {
            at: end,
            written: written + 2 + size,
            named: number.size,
        }
    } else {
        buffers::put(&mut draft.line, written + 1, seen.own);
        Spot {
            at: end,
            written: written + 2,
            named: q.named,
        }
    }
}

// One statement: its first item, the rest of it, and then its offset from the line's start.
fn statement(text: Text, q: Spot, draft: &mut Draft) -> Result<Ended, RefusedAt>
    requires { Asks (env_of text) q draft.old }
    ensures { States (env_of text.entry) q draft.old draft.new result }
{
    let seen = see(text.part, q.at, true);
    let it = seen.item;
    let place = it.at;
    let end = it.end;
    let mut frames = [0u8; DEEPEST];
    let Some(t) = grammar::take_item(&mut frames, 1, seen.class) else {
        return Err(text.refuse(Refusal::NoReading, place));
    };
    let p = begin(text, seen, q, draft);
    let start = Spot { at: 0, ..p };
    let behind = Text {
        part: &text.part[end..],
        offset: text.offset + end,
        names: text.names,
    };
    match rest(behind, seen.class, start, draft, &mut frames, t.depth)? {
        Ended::More(next) => {
            buffers::put(&mut draft.line, q.written, low_byte(next.written));
            Ok(Ended::More(Spot {
                at: end + next.at,
                ..next
            }))
        }
        Ended::Last(last) => {
            buffers::put(&mut draft.line, q.written, low_byte(last.written));
            Ok(Ended::Last(Spot { at: end, ..last }))
        }
    }
}

// All statements from a place on.
pub fn statements(text: Text, q: Spot, draft: &mut Draft) -> Result<Spot, RefusedAt>
    requires { Asks (env_of text) q draft.old }
    ensures { Tells (env_of text.entry) q draft.old draft.new result }
{
    let mut p = q;
    loop {
        match statement(text, p, draft)? {
            Ended::More(next) => p = next,
            Ended::Last(end) => return Ok(end),
        }
    }
}
