// The tables: what each token's word is, how long and where; the first with a first byte and a length; and the one search of words.
ghost use Rattle.std.specs.Prelude.{◌≡◌, ◌&&◌, not, ◌+◌, ◌≤◌, eqb, length, get_or, take, drop};
ghost use Rattle.paper.specs.Bytes.{same};
ghost use Rattle.paper.specs.Words.{find_word, statements};
ghost use Rattle.tokens.specs.Tables.{total, read_words, statement_lengths, operator_lengths, words_of, first_word, token_found};

use crate::number::statement;
use crate::{FunctionToken, OperatorToken, StatementToken};

// How many tokens from 0 on the table of statement words has.
pub(crate) const STATEMENTS: u8 = StatementToken::CLOAD.0 + 1;

// How many bytes of the fixed words are statement words.
pub(crate) const STATEMENT_BYTES: usize = 223;

// The length of each statement word, by its token; 0 where a token has no word.
pub(crate) const STATEMENT_LENGTHS: [u8; 54] = [
    3, 4, 5, 5, 4, 5, 3, 2, 3, 4, 4, 0, 5, 4, 3, 4, 3, 5, 3, 3, 3, 3, 3, 4, 4, 4, 6, 4, 5, 3, 2, 4,
    5, 3, 4, 7, 6, 3, 4, 3, 1, 3, 3, 8, 4, 8, 3, 6, 8, 6, 5, 6, 5, 5,
];

// The first token that an operator's word has.
pub(crate) const FIRST_OPERATOR: u8 = OperatorToken::COMMA.0;

// How many tokens from the first one on the table of operators' words has.
pub(crate) const OPERATORS: u8 = FunctionToken::STRIG.0 + 1 - FIRST_OPERATOR;

// The length of each word of an operator or function, by its token from the first one on; 0 where a token has no word of its own.
pub(crate) const OPERATOR_LENGTHS: [u8; 67] = [
    1, 0, 1, 1, 0, 4, 5, 2, 4, 4, 1, 2, 2, 2, 1, 1, 1, 1, 1, 1, 1, 1, 3, 2, 3, 1, 1, 0, 0, 0, 0, 0,
    0, 0, 0, 0, 0, 0, 0, 0, 0, 0, 0, 4, 4, 3, 3, 3, 3, 3, 3, 3, 4, 3, 3, 3, 3, 3, 4, 3, 3, 3, 3, 6,
    5, 5, 5,
];

// Where a statement's word begins among the fixed words: after those of the tokens before it.
pub(crate) fn statement_start(t: u8) -> u8
    ensures { result ≡ total (take t statement_lengths) }
{
    match t {
        statement::REM => 0,
        statement::DATA => 3,
        statement::INPUT => 7,
        statement::COLOR => 12,
        statement::LIST => 17,
        statement::ENTER => 21,
        statement::LET => 26,
        statement::IF => 29,
        statement::FOR => 31,
        statement::NEXT => 34,
        statement::GOTO => 38,
        0x0B => 42,
        statement::GOSUB => 42,
        statement::TRAP => 47,
        statement::BYE => 51,
        statement::CONT => 54,
        statement::COM => 58,
        statement::CLOSE => 61,
        statement::CLR => 66,
        statement::DEG => 69,
        statement::DIM => 72,
        statement::END => 75,
        statement::NEW => 78,
        statement::OPEN => 81,
        statement::LOAD => 85,
        statement::SAVE => 89,
        statement::STATUS => 93,
        statement::NOTE => 99,
        statement::POINT => 103,
        statement::XIO => 108,
        statement::ON => 111,
        statement::POKE => 113,
        statement::PRINT => 117,
        statement::RAD => 122,
        statement::READ => 125,
        statement::RESTORE => 129,
        statement::RETURN => 136,
        statement::RUN => 142,
        statement::STOP => 145,
        statement::POP => 149,
        statement::QUESTION => 152,
        statement::GET => 153,
        statement::PUT => 156,
        statement::GRAPHICS => 159,
        statement::PLOT => 167,
        statement::POSITION => 171,
        statement::DOS => 179,
        statement::DRAWTO => 182,
        statement::SETCOLOR => 188,
        statement::LOCATE => 196,
        statement::SOUND => 202,
        statement::LPRINT => 207,
        statement::CSAVE => 213,
        statement::CLOAD => 218,
        _ => 223,
    }
}

// Where the word of an operator or function begins after the statement words, by its token from the first one on.
pub(crate) fn operator_start(i: u8) -> u8
    ensures { result ≡ total (take i operator_lengths) }
{
    match i {
        0x00 => 0,
        0x01 => 1,
        0x02 => 1,
        0x03 => 2,
        0x04 => 3,
        0x05 => 3,
        0x06 => 7,
        0x07 => 12,
        0x08 => 14,
        0x09 => 18,
        0x0A => 22,
        0x0B => 23,
        0x0C => 25,
        0x0D => 27,
        0x0E => 29,
        0x0F => 30,
        0x10 => 31,
        0x11 => 32,
        0x12 => 33,
        0x13 => 34,
        0x14 => 35,
        0x15 => 36,
        0x16 => 37,
        0x17 => 40,
        0x18 => 42,
        0x19 => 45,
        0x1A => 46,
        0x1B => 47,
        0x1C => 47,
        0x1D => 47,
        0x1E => 47,
        0x1F => 47,
        0x20 => 47,
        0x21 => 47,
        0x22 => 47,
        0x23 => 47,
        0x24 => 47,
        0x25 => 47,
        0x26 => 47,
        0x27 => 47,
        0x28 => 47,
        0x29 => 47,
        0x2A => 47,
        0x2B => 47,
        0x2C => 51,
        0x2D => 55,
        0x2E => 58,
        0x2F => 61,
        0x30 => 64,
        0x31 => 67,
        0x32 => 70,
        0x33 => 73,
        0x34 => 76,
        0x35 => 80,
        0x36 => 83,
        0x37 => 86,
        0x38 => 89,
        0x39 => 92,
        0x3A => 95,
        0x3B => 99,
        0x3C => 102,
        0x3D => 105,
        0x3E => 108,
        0x3F => 111,
        0x40 => 117,
        0x41 => 122,
        0x42 => 127,
        _ => 132,
    }
}

// The token of the first statement word that begins with a byte and has a length; none if none does.
pub(crate) fn first_statement(first: u8, size: usize) -> Option<u8>
    ensures { result ≡ token_found (first_word statements first size) }
{
    match size {
        1 => match first {
            b'?' => Some(StatementToken::QUESTION.0),
            _ => None,
        },
        2 => match first {
            b'I' => Some(StatementToken::IF.0),
            b'O' => Some(StatementToken::ON.0),
            _ => None,
        },
        3 => match first {
            b'R' => Some(StatementToken::REM.0),
            b'L' => Some(StatementToken::LET.0),
            b'F' => Some(StatementToken::FOR.0),
            b'B' => Some(StatementToken::BYE.0),
            b'C' => Some(StatementToken::COM.0),
            b'D' => Some(StatementToken::DEG.0),
            b'E' => Some(StatementToken::END.0),
            b'N' => Some(StatementToken::NEW.0),
            b'X' => Some(StatementToken::XIO.0),
            b'P' => Some(StatementToken::POP.0),
            b'G' => Some(StatementToken::GET.0),
            _ => None,
        },
        4 => match first {
            b'D' => Some(StatementToken::DATA.0),
            b'L' => Some(StatementToken::LIST.0),
            b'N' => Some(StatementToken::NEXT.0),
            b'G' => Some(StatementToken::GOTO.0),
            b'T' => Some(StatementToken::TRAP.0),
            b'C' => Some(StatementToken::CONT.0),
            b'O' => Some(StatementToken::OPEN.0),
            b'S' => Some(StatementToken::SAVE.0),
            b'P' => Some(StatementToken::POKE.0),
            b'R' => Some(StatementToken::READ.0),
            _ => None,
        },
        5 => match first {
            b'I' => Some(StatementToken::INPUT.0),
            b'C' => Some(StatementToken::COLOR.0),
            b'E' => Some(StatementToken::ENTER.0),
            b'G' => Some(StatementToken::GOSUB.0),
            b'P' => Some(StatementToken::POINT.0),
            b'S' => Some(StatementToken::SOUND.0),
            _ => None,
        },
        6 => match first {
            b'S' => Some(StatementToken::STATUS.0),
            b'R' => Some(StatementToken::RETURN.0),
            b'D' => Some(StatementToken::DRAWTO.0),
            b'L' => Some(StatementToken::LOCATE.0),
            _ => None,
        },
        7 => match first {
            b'R' => Some(StatementToken::RESTORE.0),
            _ => None,
        },
        8 => match first {
            b'G' => Some(StatementToken::GRAPHICS.0),
            b'P' => Some(StatementToken::POSITION.0),
            b'S' => Some(StatementToken::SETCOLOR.0),
            _ => None,
        },
        _ => None,
    }
}

// The token of the first word of an operator or function that begins with a byte and has a length; none if none does.
pub(crate) fn first_reserved(first: u8, size: usize) -> Option<u8>
    ensures { result ≡ token_found (first_word read_words first size) }
{
    match size {
        1 => match first {
            b',' => Some(OperatorToken::COMMA.0),
            b':' => Some(OperatorToken::COLON.0),
            b';' => Some(OperatorToken::SEMICOLON.0),
            b'#' => Some(OperatorToken::CHANNEL_SIGN.0),
            b'<' => Some(OperatorToken::LESS.0),
            b'>' => Some(OperatorToken::GREATER.0),
            b'=' => Some(OperatorToken::EQUAL.0),
            b'^' => Some(OperatorToken::POWER.0),
            b'*' => Some(OperatorToken::TIMES.0),
            b'+' => Some(OperatorToken::PLUS.0),
            b'-' => Some(OperatorToken::MINUS.0),
            b'/' => Some(OperatorToken::DIVIDED_BY.0),
            b'(' => Some(OperatorToken::OPEN.0),
            b')' => Some(OperatorToken::CLOSE.0),
            _ => None,
        },
        2 => match first {
            b'T' => Some(OperatorToken::TO.0),
            b'<' => Some(OperatorToken::LESS_OR_EQUAL.0),
            b'>' => Some(OperatorToken::GREATER_OR_EQUAL.0),
            b'O' => Some(OperatorToken::OR.0),
            _ => None,
        },
        3 => match first {
            b'N' => Some(OperatorToken::NOT.0),
            b'A' => Some(OperatorToken::AND.0),
            b'U' => Some(FunctionToken::USR.0),
            b'V' => Some(FunctionToken::VAL.0),
            b'L' => Some(FunctionToken::LEN.0),
            b'C' => Some(FunctionToken::COS.0),
            b'S' => Some(FunctionToken::SIN.0),
            b'R' => Some(FunctionToken::RND.0),
            b'F' => Some(FunctionToken::FRE.0),
            b'E' => Some(FunctionToken::EXP.0),
            b'I' => Some(FunctionToken::INT.0),
            _ => None,
        },
        4 => match first {
            b'G' => Some(OperatorToken::GOTO.0),
            b'S' => Some(OperatorToken::STEP.0),
            b'T' => Some(OperatorToken::THEN.0),
            b'C' => Some(FunctionToken::CHR.0),
            b'P' => Some(FunctionToken::PEEK.0),
            _ => None,
        },
        5 => match first {
            b'G' => Some(OperatorToken::GOSUB.0),
            b'S' => Some(FunctionToken::STICK.0),
            b'P' => Some(FunctionToken::PTRIG.0),
            _ => None,
        },
        6 => match first {
            b'P' => Some(FunctionToken::PADDLE.0),
            _ => None,
        },
        _ => None,
    }
}

// Whether a word is the whole of `name`; one without a byte is none.
fn is_word(word: &[u8], name: &[u8]) -> bool
    ensures { result ≡ (not (eqb (length word.now) 0) && same word.now name.now) }
{
    !word.is_empty() && word == name
}

// The token of the word that is the whole of `name`. The words stand end to end from `start` on; their lengths are given for each
// token from `first` on, 0 for a token with no word.
pub(crate) fn find(words: &[u8], start: usize, lengths: &[u8], first: u8, name: &[u8]) -> Option<u8>
    requires { (start + total lengths.now ≤ length words.now) × (first + length lengths.now ≤ 255) }
    ensures { result ≡ token_found (find_word (words_of first lengths.now (drop start words.now)) name.now) }
{
    let mut from = start;
    let mut token = first;
    for size in lengths {
        let end = from + usize::from(*size);
        if is_word(&words[from..end], name) {
            return Some(token);
        }
        from = end;
        token += 1;
    }
    None
}
