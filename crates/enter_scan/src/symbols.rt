// Quoted strings and symbols.
ghost use Rattle.std.specs.Prelude.{◌≡◌, false, ◌&&◌, ◌+◌, ◌<◌, eqb, length, get_or, drop};
ghost use Rattle.paper.specs.Bytes.{letter?};
ghost use Rattle.enter_scan.specs.Kinds.{string_shape, symbol_shape, item_with};

use crate::{Item, Kind};
use buffers::{Run, byte_at, run_end};
use tokens::Symbol;

// The item of a quote: a string to its closing quote or, with none, to the text's end; with a 9B in it, no item.
pub(crate) fn string_item(part: &[u8], at: usize) -> Item
    requires { at < length part.now }
    ensures { result ≡ item_with (string_shape (drop at part.now)) at }
{
    let from = at + 1;
    let end = run_end(part, from, Run::StringBytes);
    let last = byte_at(part, end);
    if last == b'"' {
        return Item {
            kind: Kind::Quoted(end - from),
            at,
            end: end + 1,
        };
    }
    if last == 0x9B {
        return Item {
            kind: Kind::Bad,
            at,
            end,
        };
    }
    Item {
        kind: Kind::Quoted(end - from),
        at,
        end,
    }
}

// Whether a byte is the `?` of a statement.
pub(crate) fn is_print_sign(b: u8, first: bool) -> bool
    ensures { result ≡ (eqb b 63 && first) }
{
    first && b == b'?'
}

// The item at a byte that is no letter: the longest symbol there, or a byte that starts no item.
pub(crate) fn symbol_item(part: &[u8], at: usize) -> Item
    requires { (at < length part.now) × (letter? (get_or part.now at 0) ≡ false) }
    ensures { result ≡ item_with (symbol_shape (get_or part.now at 0) (get_or part.now (at + 1) 0)) at }
{
    match tokens::longest_symbol(part[at], byte_at(part, at + 1)) {
        Some(Symbol::Two(t)) => Item {
            kind: Kind::Operator(t),
            at,
            end: at + 2,
        },
        Some(Symbol::One(t)) => Item {
            kind: Kind::Operator(t),
            at,
            end: at + 1,
        },
        None => Item {
            kind: Kind::Bad,
            at,
            end: at + 1,
        },
    }
}
