// A line that was read, wherever it is to stand: whether the names that are new in it have room and it is short enough, and these names added.
#![tactic(auto)]

ghost use Rattle.std.specs.Prelude.{◌≡◌, ◌++◌, ◌*◌, take};
ghost use Rattle.paper.specs.Names.{names_in, name_bytes, value_entries};
ghost use Rattle.paper.specs.Store.{overwritten};
ghost use Rattle.names_numbered.specs.Answers.{lacks, Room};
ghost use Rattle.editor_names.specs.Answers.{accepting, short_of};

use editor_edit::{Editor, Entered};
use refusals::Refusal;
use store::Counts;

// The most bytes that a line may have.
const LONGEST_LINE: usize = 255;

// The refusal that a line of `size` bytes gets wherever it is to stand, if it gets one: that the names that are new in it lack room, or that it is too
// long.
#[tactic(auto, unfolding(crate::specs::Answers::short_of))]
pub fn shortage(
    name_room: usize,
    value_room: usize,
    size: usize,
    fresh: &[u8],
    e: Editor,
) -> Option<Refusal>
    ensures { result ≡ short_of (lacks name_room e.name_bytes value_room e.name_count (names_in fresh.now)) size }
{
    let lacks = names_numbered::lacks_room(
        name_room,
        e.name_bytes,
        value_room,
        e.name_count,
        fresh,
    );
    if lacks {
        Some(Refusal::NoNameRoom)
    } else if LONGEST_LINE < size {
        Some(Refusal::LongLine)
    } else {
        None
    }
}

// Adds the names that are new in an accepted line to the tables, and answers with the store's counts after it.
pub fn accepted(
    fresh: &[u8],
    names: &mut [u8],
    values: &mut [u8],
    after: Counts,
    e: Editor,
) -> Entered
    requires { Room names.old e.name_bytes values.old e.name_count fresh.now }
    ensures { (result ≡ accepting fresh.now after e)
        × (names.new ≡ overwritten (take e.name_bytes names.old ++ name_bytes (names_in fresh.now)) names.old)
        × (values.new ≡ overwritten (take (8 * e.name_count) values.old ++ value_entries e.name_count (names_in fresh.now)) values.old) }
{
    names_numbered::add(names, e.name_bytes, values, e.name_count, fresh);
    let added = names_numbered::count(fresh);
    let name_count = e.name_count + added;
    let name_bytes = e.name_bytes + fresh.len();
    Entered {
        added: Ok(added),
        editor: Editor {
            name_count,
            name_bytes,
            ..e.with_counts(after)
        },
    }
}
