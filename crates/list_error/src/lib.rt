// Error lines (document 02, §9): whether a line is one, and what its listing has after the number.
#![tactic(auto)]

ghost use Rattle.std.specs.Prelude.{◌≡◌, true, ◌++◌, ◌≤◌, ◌^◌};
ghost use Rattle.paper.specs.Bytes.{bytes};
ghost use Rattle.paper.specs.Errors.{error_line?, error_text};
ghost use Rattle.list_text.specs.Texts.{Writes};

use buffers::Run;
use tokens::StatementToken;

// The statement token of an error line.
const ERROR_TOKEN: u8 = StatementToken::ERROR.0;

// The word before an error line's text, and its blank.
const ERROR: [u8; 7] = *b"ERROR- ";

// Whether a line, of any bytes, is an error line. The token is tested first, so that of any other line no more is looked at.
pub fn is_error_line(line: &[u8]) -> bool
    ensures { result ≡ error_line? line.now }
{
    let size = line.len();
    if buffers::byte_at(line, 4) != ERROR_TOKEN {
        return false;
    }
    if buffers::byte_at(line, 2) as usize != size {
        return false;
    }
    if buffers::byte_at(line, 3) as usize != size {
        return false;
    }
    buffers::run_end(line, 5, Run::RawBytes) + 1 == size
}

// Writes `ERROR-`, a blank and the text of an error line to a place of a buffer, as much as fits, and returns their length.
pub fn write_error(line: &[u8], out: &mut [u8], n: usize) -> usize
    requires { (error_line? line.now ≡ true) × (n ≤ 2 ^ 63) }
    ensures { Writes (bytes "ERROR- " ++ error_text line.now) n out.old result out.new }
{
    let end = line.len() - 1;
    buffers::copy(out, n, &ERROR);
    buffers::copy(out, n + 7, &line[5..end]);
    end + 2
}
