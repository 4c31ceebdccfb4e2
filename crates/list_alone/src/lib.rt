// The test of a line alone: whether it is well-formed, as the first pass of a listing tests it, without the listing's length, over a list of the kinds of all names.
#![tactic(auto)]

ghost use Rattle.std.specs.Prelude.{◌≡◌, List, ℕ, ◌≤◌, length, get_or};
ghost use Rattle.paper.specs.Line.{lawful_number?};
ghost use Rattle.paper.specs.WellFormed.{well_formed?};
ghost use Rattle.names_kinds.specs.Kinds.{Kinds};
ghost use Rattle.list_pieces.specs.Rest.{Numbered, Head};
ghost use Rattle.list_check.specs.Walks.{Listed};

// As long as the deepest stack of frames that a line of 255 bytes can need: no piece needs more than eight frames for each of its bytes.
pub const DEEPEST: usize = 2056;

// Whether a stored line whose head is right is well-formed. The stack of frames begins with the frame of a statement.
fn is_formed(line: &[u8], kinds: &[u8], frames: &mut [u8]) -> bool
    requires { Head lawful_number? line.now × Listed kinds.now × (2056 ≤ length frames.old) × (get_or frames.old 0 0 ≡ 0) }
    ensures { (ns : List (List ℕ)) → Numbered ns → Kinds ns kinds.now → result ≡ well_formed? ns line.now }
{
    let mut at: usize = 3;
    let mut end: usize = 3;
    let mut depth: usize = 1;
    // Stays a loop by hand: list_check::check_next, whose promise is kept as it is, tells a piece, tests it and passes it in one call.
    while at < line.len() {
        let Some(next) = list_check::check_next(line, at, end, kinds, frames, depth) else {
            return false;
        };
        at += next.size;
        end = next.end;
        depth = next.depth;
    }
    if end != at {
        return false;
    }
    depth == 0
}

// Whether a stored line, of any bytes, is well-formed over names of which the kinds are listed: what is tested before a listing is written. The caller
// lends the room for the stack of frames; what it holds does not matter.
pub fn well_formed_over(line: &[u8], kinds: &[u8], frames: &mut [u8]) -> bool
    requires { Listed kinds.now × (2056 ≤ length frames.old) }
    ensures { (ns : List (List ℕ)) → Numbered ns → Kinds ns kinds.now → result ≡ well_formed? ns line.now }
{
    if !list_head::is_right(line, false) {
        return false;
    }
    frames[0] = 0;
    is_formed(line, kinds, frames)
}
