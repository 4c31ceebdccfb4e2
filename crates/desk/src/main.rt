// The desk program: enters each line of standard input and prints what each call answered, and then the listing of every stored line.
#![tactic(auto)]

ghost use Rattle.std.specs.Prelude.{◌<◌, IfSome};

use buffers::front;
use console::{AT_ONCE, Ahead, KEPT, next_line};
use editor_edit::{Editor, empty};
use editor_lent::{enter_lent, list_lent};
use refusals::{Refusal, RefusedItem};
use std::io::BufRead;
use store::heads;

// The desk: the tables, the store, a line buffer for lines without a number, and the one record, which is lent to each call.
#[derive(Drop)]
struct Desk {
    names: [u8; 2048],
    values: [u8; 2048],
    store: [u8; 32768],
    line: [u8; 255],
    record: Editor,
}

impl Desk {
    // A desk with empty tables and an empty store.
    fn empty() -> Desk {
        Desk {
            names: [0; 2048],
            values: [0; 2048],
            store: [0; 32768],
            line: [0; 255],
            record: empty(),
        }
    }

    // Enters a line, and says how many names that added, or why it is refused. A wrong one is not kept.
    fn enter(&mut self, text: &[u8]) -> Result<usize, RefusedItem> {
        let Desk {
            names,
            values,
            store,
            line,
            record,
        } = self;
        enter_lent(text, false, names, values, store, line, record)
    }

    // Lists the line with a number to the front of a buffer, and says how many bytes that took.
    fn list(&self, number: usize, out: &mut [u8]) -> Result<usize, Refusal> {
        list_lent(
            number,
            &self.names,
            &self.values,
            &self.store,
            &self.record,
            out,
        )
    }
}

// Prints what entering a line answered: the line's number in the input, the answer's, the place, its end, the names added and the bytes used.
fn print_entered(rt: &impl Print, count: usize, answer: Result<usize, RefusedItem>, used: usize) {
    let (number, place, end, added) = match answer {
        Ok(added) => (0, 0, 0, added),
        Err(item) => (item.refusal.number(), item.place, item.end, 0),
    };
    let _ = println!(rt; "E\t{count}\t{number}\t{place}\t{end}\t{added}\t{used}");
}

// Enters every line of the input.
fn enter_all(rt: &impl Print, input: &mut impl BufRead, desk: &mut Desk) {
    let mut text = [0; KEPT];
    for count in 1..=usize::MAX {
        let Some(length) = next_line(input, &mut text) else {
            return;
        };
        let answer = desk.enter(front(&text, length));
        print_entered(rt, count, answer, desk.record.used);
    }
}

// A stored line to list: its number, and the place after it.
#[derive(Clone, Copy)]
struct Stored {
    number: usize,
    next: usize,
}

// The line at a place of a store of which so many bytes are used, where there is one.
fn stored_at(at: usize, used: usize, store: &[u8]) -> Option<Stored>
    ensures { IfSome result (λ stored. at < stored.next) }
{
    if used <= at {
        return None;
    }
    let line = store.get(at..)?;
    let size = heads::size(line).min(line.len());
    if 0 < size {
        Some(Stored {
            number: heads::number(line),
            next: at + size,
        })
    } else {
        None
    }
}

// Prints the listing of every stored line, in order.
// Stays a walk by hand: it goes from place to place, and how far the next line lies is known once its head is read.
fn list_all(rt: &impl Print, desk: &Desk) {
    let mut out = [0; 1024];
    let mut at = 0;
    while let Some(stored) = stored_at(at, desk.record.used, &desk.store) {
        let written = desk.list(stored.number, &mut out).unwrap_or(0);
        let _ = rt.write_all(b"L\t");
        let _ = rt.write_all(front(&out, written));
        let _ = rt.write_all(b"\n");
        at = stored.next;
    }
}

fn main(rt: HostRuntime) {
    let mut input = Ahead::<AT_ONCE>::of(rt.stdin());
    let mut desk = Desk::empty();
    enter_all(&rt, &mut input, &mut desk);
    list_all(&rt, &desk);
}
