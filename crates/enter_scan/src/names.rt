// Names: words and variables.
ghost use Rattle.std.specs.Prelude.{◌≡◌, suc, ◌<◌, eqb, length, get_or, drop};
ghost use Rattle.paper.specs.Bytes.{pick};
ghost use Rattle.paper.specs.Words.{find_word, operators};
ghost use Rattle.enter_scan.specs.Kinds.{variable_kind, reserved_kind, name_kind, name_shape, item_with};

use crate::{Item, Kind};
use buffers::{Run, byte_at, run_end};
use tokens::Reserved;

// Past a `$`, if one stands there.
fn past_dollar(part: &[u8], at: usize) -> usize
    ensures { result ≡ pick (eqb (get_or part.now at 0) 36) (suc at) at }
{
    if byte_at(part, at) == b'$' {
        at + 1
    } else {
        at
    }
}

// The variable that `size` bytes of name are, by the byte after its letters and digits and the byte after the name.
fn variable(last: u8, next: u8, size: usize) -> Kind
    ensures { result ≡ variable_kind last next size }
{
    if last == b'$' {
        return Kind::Text(size);
    }
    if next == b'(' {
        Kind::Array(size)
    } else {
        Kind::Numeric(size)
    }
}

// A word operator or function, or else another kind.
fn reserved_or(name: &[u8], other: Kind) -> Kind
    ensures { result ≡ reserved_kind (find_word operators name.now) other }
{
    match tokens::reserved_word(name) {
        Some(Reserved::Operator(t)) => Kind::Operator(t),
        Some(Reserved::Function(t)) => Kind::Function(t),
        None => other,
    }
}

// What a name is: in statement position a statement's word; else a word operator or function; else another kind.
fn kind_of_name(name: &[u8], first: bool, other: Kind) -> Kind
    ensures { result ≡ name_kind first name.now other }
{
    if !first {
        return reserved_or(name, other);
    }
    match tokens::statement_word(name) {
        Some(t) => Kind::Statement(t),
        None => reserved_or(name, other),
    }
}

// The item of a name: the longest run of letters and digits, with a `$` directly after it.
pub(crate) fn name_item(part: &[u8], at: usize, first: bool) -> Item
    requires { at < length part.now }
    ensures { result ≡ item_with (name_shape first (drop at part.now)) at }
{
    let letters = run_end(part, at, Run::NameBytes);
    let end = past_dollar(part, letters);
    let other = variable(byte_at(part, letters), byte_at(part, end), end - at);
    Item {
        kind: kind_of_name(&part[at..end], first, other),
        at,
        end,
    }
}
