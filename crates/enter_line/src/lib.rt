// From text to token line, or its refusal: the number of the line, and then its statements.
#![tactic(auto)]

ghost use Rattle.std.specs.Prelude.{◌≡◌, ◌≤◌, length};
ghost use Rattle.paper.specs.Names.{names_in};
ghost use Rattle.paper.specs.Line.{direct_number};
ghost use Rattle.paper.specs.Calls.{head_of};
ghost use Rattle.refusals.specs.Numbers.{number_of};
ghost use Rattle.enter_line.specs.Reading.{as_head, start_at, as_start, Refuses, Told};

use buffers::{Run, copy, decimal, put, run_end};
pub use enter_error::DIRECT_NUMBER;
use enter_error::{keeps, write_error_line};
use enter_item::{Draft, LINE_ROOM, Spot, Text, low_byte};
use enter_scan::item_at;
use enter_statements::statements;
use refusals::{Refusal, RefusedAt, RefusedItem};
use store::GREATEST_NUMBER;

// A line that was read: its number, how many bytes it has, and how many bytes the names new in it have.
#[derive(Clone, Copy)]
pub struct Line {
    pub number: usize,
    pub size: usize,
    pub named: usize,
}

// What reading a text gives: a line; the number alone of a line to delete; or the error line that is kept of a text refused with NoReading, with that
// refusal.
#[derive(Clone, Copy)]
pub enum Reading {
    Read(Line),
    Delete(usize),
    Kept(Line, RefusedItem),
}

// The number of a line, and the place from which on its statements stand.
#[derive(Clone, Copy)]
struct Numbered {
    number: usize,
    from: usize,
}

// Why a text begins with no number: its digits are worth too much for a line; it has no digit, as a text of blanks alone or another.
#[derive(Clone, Copy)]
enum NoNumber {
    TooGreat,
    OnlyBlanks,
    Unnumbered,
}

// The number is the digit run after blanks; what it numbers stands past its digits.
fn head_of(text: &[u8]) -> Result<Numbered, NoNumber>
    ensures { head_of text.now ≡ as_head text.now result }
{
    let from = run_end(text, 0, Run::Blanks);
    let end = run_end(text, from, Run::Digits);
    if end == from {
        if from == text.len() {
            return Err(NoNumber::OnlyBlanks);
        }
        return Err(NoNumber::Unnumbered);
    }
    let number = decimal(&text[from..end]);
    if GREATEST_NUMBER < number {
        return Err(NoNumber::TooGreat);
    }
    Ok(Numbered { number, from: end })
}

// What a text is to be read as: the statements of a line, or its number alone.
#[derive(Clone, Copy)]
enum Start {
    Statements(Numbered),
    NumberAlone(usize),
}

// A line without a number: its statements stand from the text's own start on.
const DIRECT: Numbered = Numbered {
    number: DIRECT_NUMBER,
    from: 0,
};

// The start of a text, if it has one. `direct` says whether one without a number is a line.
fn start_of(text: &[u8], direct: bool) -> Option<Start>
    ensures { start_at direct (head_of text.now) ≡ as_start result }
{
    match head_of(text) {
        Ok(line) => {
            if run_end(text, line.from, Run::Blanks) == text.len() {
                Some(Start::NumberAlone(line.number))
            } else {
                Some(Start::Statements(line))
            }
        }
        Err(NoNumber::TooGreat) => None,
        Err(NoNumber::OnlyBlanks) => None,
        Err(NoNumber::Unnumbered) => direct.then_some(Start::Statements(DIRECT)),
    }
}

// What comes of a text whose line, as it was numbered, is refused as having no reading or out of range: the error line, at the front of `line`, where it is
// kept, or the refusal. Its place ends with the item that stands there.
fn refused(
    text: &[u8],
    keep: bool,
    numbered: Numbered,
    at: RefusedAt,
    line: &mut [u8; LINE_ROOM],
) -> Result<Reading, RefusedItem>
    requires { (numbered.number ≤ direct_number) × (numbered.from ≤ at.place) × (at.place ≤ length text.now) × (length text.now ≤ 120) }
    ensures { Refuses keep text.now numbered.number numbered.from (number_of at.refusal) at.place line.new result }
{
    let Numbered { number, from } = numbered;
    let RefusedAt { refusal, place } = at;
    let item = item_at(text, place, false);
    let end = item.end;
    let answer = RefusedItem {
        refusal,
        place,
        end,
    };
    if !keeps(text, keep, number, refusal.number(), place) {
        return Err(answer);
    }
    let size = write_error_line(number, &text[from..], place - from, line);
    let kept = Line {
        number,
        size,
        named: 0,
    };
    Ok(Reading::Kept(kept, answer))
}

// The refusal of a text that is no line.
const NO_NUMBER: RefusedItem = RefusedItem {
    refusal: Refusal::NoNumber,
    place: 0,
    end: 0,
};

// Reads a text of at most 120 bytes over the bytes of a name table; one without a number only if `direct` says so. An accepted line, or the error line of a
// wrong one that is kept, which `keep` says, is written to the front of the draft's line, and the names that are new in an accepted line to the front of its
// new names; what they hold after any other answer is scratch.
pub fn read(
    text: &[u8],
    keep: bool,
    direct: bool,
    names: &[u8],
    draft: &mut Draft,
) -> Result<Reading, RefusedItem>
    requires { (length text.now ≤ 120) × (240 ≤ length draft.old.fresh) }
    ensures { Told (names_in names.now) keep direct text.now draft.old.line draft.old.fresh draft.new.line draft.new.fresh result }
{
    let Some(start) = start_of(text, direct) else {
        return Err(NO_NUMBER);
    };
    match start {
        Start::NumberAlone(number) => Ok(Reading::Delete(number)),
        Start::Statements(numbered) => {
            let number = numbered.number;
            copy(&mut draft.line, 0, &(number as u16).to_le_bytes());
            let first = Spot {
                at: numbered.from,
                written: 3,
                named: 0,
            };
            let whole = Text {
                part: text,
                offset: 0,
                names,
            };
            match statements(whole, first, draft) {
                Ok(last) => {
                    put(&mut draft.line, 2, low_byte(last.written));
                    Ok(Reading::Read(Line {
                        number,
                        size: last.written,
                        named: last.named,
                    }))
                }
                Err(at) => refused(text, keep, numbered, at, &mut draft.line),
            }
        }
    }
}
