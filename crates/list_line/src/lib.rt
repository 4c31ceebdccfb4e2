// From token line to text: the listing of a well-formed line or of an error line, or why there is none.
#![tactic(auto)]

mod first;
mod second;

ghost use Rattle.std.specs.Prelude.{◌≡◌, take};
ghost use Rattle.paper.specs.Names.{names_in};
ghost use Rattle.list_pieces.specs.Rest.{Sound};
ghost use Rattle.list_outcome.specs.Outcomes.{answer};
ghost use Rattle.list_line.specs.Listed.{lists};

use refusals::Refusal;

// Lists a line, of any bytes, stored or direct, over a sound name table of `size` bytes: the listing is written to the front of a buffer and its
// length is returned, or nothing is written.
pub fn list(
    line: &[u8],
    direct: bool,
    names: &[u8],
    size: usize,
    out: &mut [u8],
) -> Result<usize, Refusal>
    requires { Sound names.now size }
    ensures { answer result out.new ≡ lists direct (names_in (take size names.now)) line.now out.old }
{
    if list_error::is_error_line(line) {
        return list_outcome::list_error(line, direct, out);
    }
    let room = out.len();
    let Some(n) = first::measure_line(line, direct, names, size, room) else {
        return Err(Refusal::NotWellFormed);
    };
    if room < n {
        return Err(Refusal::LongListing);
    }
    second::write_line(line, direct, names, size, out);
    Ok(n)
}
