// The listing of an error line (document 02, §9): its length, or why there is none.
#![tactic(auto)]

ghost use Rattle.std.specs.Prelude.{◌≡◌, true};
ghost use Rattle.paper.specs.Line.{line_number};
ghost use Rattle.paper.specs.Errors.{error_line?};
ghost use Rattle.paper.specs.Calls.{listed_if};
ghost use Rattle.list_text.specs.Texts.{Writes};
ghost use Rattle.list_head.specs.Heads.{lawful_for};
ghost use Rattle.list_outcome.specs.Outcomes.{error_listing, answer};

use refusals::Refusal;

// Writes the listing of an error line to the front of a buffer, as much as fits, and returns its length.
fn write_listing(line: &[u8], direct: bool, out: &mut [u8]) -> usize
    requires { error_line? line.now ≡ true }
    ensures { Writes (error_listing direct line.now) 0 out.old result out.new }
{
    let n = list_head::write_head(line, direct, out);
    n + list_error::write_error(line, out, n)
}

// Lists an error line: the listing is written to the front of a buffer and its length is returned, or nothing is written.
pub fn list_error(line: &[u8], direct: bool, out: &mut [u8]) -> Result<usize, Refusal>
    requires { error_line? line.now ≡ true }
    ensures { answer result out.new ≡ listed_if (lawful_for direct (line_number line.now)) (error_listing direct line.now) out.old }
{
    if !list_head::is_lawful(line, direct) {
        return Err(Refusal::NotWellFormed);
    }
    let mut none = [0u8; 0];
    if out.len() < write_listing(line, direct, &mut none) {
        return Err(Refusal::LongListing);
    }
    Ok(write_listing(line, direct, out))
}
