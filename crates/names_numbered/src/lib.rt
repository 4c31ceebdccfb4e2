// The name table and the value table: a name's number, new names, the rooms and the limit for them, and the name with a number.
#![tactic(auto)]

ghost use Rattle.std.specs.Prelude.{◌≡◌, true, [], ◌∷◌, ◌++◌, ◌+◌, ◌-◌, ◌*◌, ◌≤◌, ◌<◌, length, take, get_or};
ghost use Rattle.std.proofs.lemmas.List.Edits.{sets};
ghost use Rattle.paper.specs.Bytes.{joined};
ghost use Rattle.paper.specs.Tokens.{by_kind};
ghost use Rattle.paper.specs.Words.{statement_word?};
ghost use Rattle.paper.specs.Names.{names_in, name_bytes, less_open, value_entries};
ghost use Rattle.paper.specs.Store.{overwritten};
ghost use Rattle.laws.specs.Names.{plain_name};
ghost use Rattle.names_form.specs.Names.{spelling};
ghost use Rattle.names_numbered.specs.Answers.{spelled, Numbers, lacks, Room, Stands};

use names_form::shape::Spelling;
use names_form::{MOST_NAMES, table};
use tokens::class;

// ---- the number of a name

// A name's number, and how many bytes the names new in this line have with it.
#[derive(Clone, Copy)]
pub struct Numbered {
    pub number: usize,
    pub size: usize,
}

// A name of the text; a `(` stands behind an array's.
fn spelled(part: &[u8], array: bool) -> Spelling
    requires { plain_name (spelled part.now array) ≡ true }
    ensures { (spelling result ≡ spelled part.now array) × (result.last < 128) }
{
    if array {
        return Spelling {
            front: part,
            last: b'(',
        };
    }
    match part.split_last() {
        Some((last, front)) => Spelling { front, last: *last },
        None => Spelling {
            front: part,
            last: 0,
        },
    }
}

// The number of a name among the names of a table and then those of the first f bytes of `fresh`. A new name's bytes are put at f.
fn look_up(names: &[u8], fresh: &mut [u8], f: usize, name: Spelling) -> Numbered
    requires { (f ≤ length fresh.old) × (name.last < 128) }
    ensures { Numbers (names_in names.now ++ names_in (take f fresh.old)) (spelling name.entry) fresh.old f result fresh.new }
{
    let known = match table::find(names, name) {
        Ok(number) => return Numbered { number, size: f },
        Err(count) => count,
    };
    let new = match table::find(&fresh[..f], name) {
        Ok(place) => {
            return Numbered {
                number: known + place,
                size: f,
            };
        }
        Err(count) => count,
    };
    let at = f + name.front.len();
    buffers::copy(fresh, f, name.front);
    buffers::put(fresh, at, name.last + 128);
    Numbered {
        number: known + new,
        size: at + 1,
    }
}

// The number of a name among the names of the lent table, and then among those that are new in this line, which are the first f bytes of `fresh`.
// A name that is none of them is put there, and has the next number. The name is a part of the text, and a `(` if it is an array's.
// Stays with `size` beside `names`, and f beside `fresh`: what Numbers promises is said of them, and the edit past_the_size mistakes one for the other.
pub fn number_of(
    names: &[u8],
    size: usize,
    fresh: &mut [u8],
    f: usize,
    part: &[u8],
    array: bool,
) -> Numbered
    requires { (f ≤ length fresh.old) × (plain_name (spelled part.now array) ≡ true) }
    ensures { Numbers (names_in (take size names.now) ++ names_in (take f fresh.old)) (spelled part.now array) fresh.old f result fresh.new }
{
    look_up(buffers::front(names, size), fresh, f, spelled(part, array))
}

// ---- new names

// How many names some bytes are.
pub fn count(bytes: &[u8]) -> usize
    ensures { result ≡ length (names_in bytes.now) }
{
    table::names_in(bytes).count()
}

// Whether the new names of some bytes would pass the limit, or lack room for their bytes or their values; never when there is none.
pub fn lacks_room(
    name_room: usize,
    size: usize,
    value_room: usize,
    count: usize,
    fresh: &[u8],
) -> bool
    ensures { result ≡ lacks name_room size value_room count (names_in fresh.now) }
{
    if fresh.len() == 0 {
        return false;
    }
    if MOST_NAMES < count {
        return true;
    }
    let after = count + crate::count(fresh);
    if MOST_NAMES < after {
        return true;
    }
    if name_room < size {
        return true;
    }
    if name_room - size < fresh.len() {
        return true;
    }
    value_room < 8 * after
}

// Writes the value entry of the name with a number: type, number, six zeros.
fn put_value(values: &mut [u8], number: usize, name: Spelling)
    requires { number < 256 }
    ensures { values.new ≡ sets values.old (8 * number) (by_kind (spelling name.entry) 0x00 0x80 0x40 ∷ number ∷ 0 ∷ 0 ∷ 0 ∷ 0 ∷ 0 ∷ 0 ∷ []) }
{
    let kind = name.by_kind(0x00, 0x80, 0x40);
    let entry = [kind, number as u8, 0, 0, 0, 0, 0, 0];
    buffers::copy(values, 8 * number, &entry);
}

// Writes the value entries of some names, the first of which has the number `count`.
fn put_values(values: &mut [u8], count: usize, fresh: &[u8])
    requires { count + length (names_in fresh.now) ≤ 256 }
    ensures { values.new ≡ sets values.old (8 * count) (value_entries count (names_in fresh.now)) }
{
    for (i, name) in table::names_in(fresh).enumerate() {
        put_value(values, count + i, name);
    }
}

// Puts the new names of some bytes behind the `count` names of a table of `size` bytes, with their value entries.
// Stays with `size` and `count` beside the two rooms: it writes behind them, and promises what the whole rooms hold then.
pub fn add(names: &mut [u8], size: usize, values: &mut [u8], count: usize, fresh: &[u8])
    requires { Room names.old size values.old count fresh.now }
    ensures names_after { names.new ≡ overwritten (take size names.old ++ name_bytes (names_in fresh.now)) names.old }
    ensures values_after { values.new ≡ overwritten (take (8 * count) values.old ++ value_entries count (names_in fresh.now)) values.old }
{
    buffers::copy(names, size, fresh);
    put_values(values, count, fresh);
}

// ---- the name with a number

// Where a name begins in the table, where it ends less its `(`, and the class of the variable.
#[derive(Clone, Copy)]
pub struct Name {
    pub from: usize,
    pub end: usize,
    pub class: u8,
}

// Where the name with a number begins in a table.
fn start_of(names: &[u8], number: usize) -> usize
    ensures { result ≡ length (joined (take number (names_in names.now))) }
{
    let mut from = 0;
    for name in table::names_in(names).take(number) {
        from += name.size();
    }
    from
}

// The name with a number, of a table of `size` bytes.
// Stays with `size` beside `names`: a size past the end of the bytes counts as their end, and a slice would ask the callers for one that is not.
pub fn name_at(names: &[u8], size: usize, number: usize) -> Name
    ensures { Stands (names_in (take size names.now)) number result }
{
    let used = buffers::front(names, size);
    let from = start_of(used, number);
    match table::names_in(&used[from..]).next() {
        Some(name) => Name {
            from,
            end: from + name.bare_size(),
            class: name.by_kind(
                class::NUMERIC_VARIABLE,
                class::STRING_VARIABLE,
                class::ARRAY,
            ),
        },
        None => Name {
            from,
            end: from,
            class: class::NUMERIC_VARIABLE,
        },
    }
}

// Whether the name with a number, less its `(`, is a statement word.
pub fn is_statement_word(names: &[u8], size: usize, number: usize) -> bool
    ensures { result ≡ statement_word? (less_open (get_or (names_in (take size names.now)) number [])) }
{
    table::names_in(buffers::front(names, size))
        .nth(number)
        .is_some_and(|name| name.is_statement())
}
