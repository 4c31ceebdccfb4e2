// The kinds of all names of a table, listed: the class of each as a variable, and whether it is a statement word.
#![tactic(auto)]

ghost use Rattle.std.specs.Prelude.{◌≡◌};
ghost use Rattle.std.proofs.lemmas.List.Edits.{sets};
ghost use Rattle.paper.specs.Names.{names_in};
ghost use Rattle.names_form.specs.Names.{spelling};
ghost use Rattle.names_kinds.specs.Kinds.{kind_of, kinds_of};

use names_form::shape::Spelling;
use names_form::table;
use tokens::class;

// The length of a list of kinds: as many as a table has names at most.
pub const KINDS: usize = names_form::MOST_NAMES;

// What a kind has more where the name is a statement word.
pub const WORD: u8 = 8;

// The kind of a name: the class of the variable, and WORD more where the name is a statement word.
fn kind_of(name: Spelling) -> u8
    ensures { result ≡ kind_of (spelling name.entry) }
{
    let kind = name.by_kind(
        class::NUMERIC_VARIABLE,
        class::STRING_VARIABLE,
        class::ARRAY,
    );
    if name.is_statement() {
        kind + WORD
    } else {
        kind
    }
}

// Writes the kinds of the names of some bytes to the front of a buffer, in the order of their numbers, as many as fit.
pub fn list_kinds(names: &[u8], kinds: &mut [u8])
    ensures { kinds.new ≡ sets kinds.old 0 (kinds_of (names_in names.now)) }
{
    for (number, name) in table::names_in(names).enumerate() {
        buffers::put(kinds, number, kind_of(name));
    }
}
