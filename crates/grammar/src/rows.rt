// The rows of the grammar's frames, laid over one another, and the words of their acts. (Made by scripts/tables.py.)
ghost use Rattle.std.specs.Prelude.{◌≡◌, ◌-◌, ◌≤◌, slice_index, slice_index_or};
ghost use Rattle.grammar.specs.Tables.{no_entry, past_rows, first_act};
ghost use Rattle.grammar.specs.Rows.{firsts, entries, words, rests};

use tokens::OperatorToken;

// The rows of the frames that leave what they do not take begin before this place, those of the others here or later.
pub(crate) const REFUSING: u8 = 58;

// Where the row of a frame begins among the entries. The entry for a class is as many places further.
pub(crate) fn first_of(frame: u8) -> u8
    ensures { result ≡ slice_index_or firsts frame past_rows }
{
    match frame {
        0 => 78, // statement
        1 => 58, // after then
        2 => 64, // end
        3 => 105, // raw text
        4 => 76, // raw end
        5 => 126, // operand
        6 => 41, // more terms
        7 => 72, // array open
        8 => 67, // second
        9 => 127, // close
        10 => 131, // function open
        11 => 130, // string
        12 => 6, // substring
        13 => 65, // string comparison
        14 => 129, // number assigned
        15 => 132, // string assigned
        16 => 69, // let target
        17 => 116, // then
        18 => 138, // for variable
        19 => 133, // for equals
        20 => 124, // to
        21 => 11, // step
        22 => 138, // numeric variable
        23 => 128, // goto gosub
        24 => 10, // more lines
        25 => 63, // dim
        26 => 140, // dim array open
        27 => 144, // dim string open
        28 => 12, // more dims
        29 => 79, // plain variable
        30 => 23, // more variables
        31 => 27, // print list
        32 => 5, // print comparison
        33 => 1, // print separator
        34 => 145, // comma
        35 => 45, // restore number
        36 => 134, // channel
        37 => 8, // input channel
        38 => 125, // input separator
        39 => 0, // print
        40 => 146, // parameters
        _ => 200,
    }
}

// The entry at a place: a class, and what the frame whose row this is does with its items. The rows of the frames lie over one another, so that an
// entry of one stands where others have none. It is a `match`, since a table that is borrowed is laid down anew in each call.
pub(crate) fn entry_at(place: u8) -> u16
    ensures { result ≡ slice_index_or entries place no_entry }
{
    match place {
        3 => 0x03_48, // print: number
        4 => 0x04_50, // print: quoted
        5 => 0x05_48, // print: numeric variable
        6 => 0x06_5f, // print: string variable
        7 => 0x07_72, // print: array
        11 => 0x0b_68, // print: open sign
        13 => 0x0d_43, // print: comma
        14 => 0x0d_43, // print separator: comma
        15 => 0x0f_43, // print: semicolon
        16 => 0x0f_43, // print separator: semicolon
        17 => 0x0b_55, // substring: open sign
        18 => 0x12_5a, // print: plus minus
        20 => 0x14_59, // print: not word
        21 => 0x10_49, // print comparison: equals
        22 => 0x11_49, // print comparison: comparison
        23 => 0x0d_58, // more lines: comma
        25 => 0x0d_40, // more dims: comma
        26 => 0x1a_76, // print: string function
        27 => 0x1b_6c, // print: function of string
        28 => 0x1c_74, // print: function of number
        29 => 0x1d_59, // print: channel sign
        30 => 0x03_48, // print list: number
        31 => 0x04_50, // print list: quoted
        32 => 0x05_48, // print list: numeric variable
        33 => 0x06_5f, // print list: string variable
        34 => 0x07_72, // print list: array
        35 => 0x18_45, // step: step word
        36 => 0x0d_41, // more variables: comma
        37 => 0x1d_5b, // input channel: channel sign
        38 => 0x0b_68, // print list: open sign
        40 => 0x0d_43, // print list: comma
        42 => 0x0f_43, // print list: semicolon
        45 => 0x12_5a, // print list: plus minus
        47 => 0x14_59, // print list: not word
        48 => 0x03_3a, // restore number: number
        49 => 0x04_4b, // restore number: quoted
        50 => 0x05_3a, // restore number: numeric variable
        51 => 0x06_5d, // restore number: string variable
        52 => 0x07_69, // restore number: array
        53 => 0x1a_76, // print list: string function
        54 => 0x1b_6c, // print list: function of string
        55 => 0x1c_74, // print list: function of number
        56 => 0x0b_62, // restore number: open sign
        57 => 0x10_45, // more terms: equals
        58 => 0x11_45, // more terms: comparison
        59 => 0x12_45, // more terms: plus minus
        60 => 0x13_45, // more terms: factor sign
        61 => 0x03_37, // after then: number
        62 => 0x15_45, // more terms: or and
        63 => 0x12_46, // restore number: plus minus
        64 => 0x00_30, // end: line end
        65 => 0x14_45, // restore number: not word
        66 => 0x08_4c, // after then: first numeric
        67 => 0x09_5e, // after then: first string
        68 => 0x0a_73, // after then: first array
        69 => 0x06_6e, // dim: string variable
        70 => 0x07_6d, // dim: array
        71 => 0x1a_75, // restore number: string function
        72 => 0x1b_66, // restore number: function of string
        73 => 0x1c_6a, // restore number: function of number
        74 => 0x05_4c, // let target: numeric variable
        75 => 0x06_5e, // let target: string variable
        76 => 0x07_73, // let target: array
        77 => 0x01_30, // raw end: raw end
        78 => 0x0e_36, // end: colon
        79 => 0x0c_30, // second: close sign
        80 => 0x0d_57, // second: comma
        81 => 0x10_3b, // string comparison: equals
        82 => 0x11_3b, // string comparison: comparison
        83 => 0x0b_32, // array open: open sign
        84 => 0x05_42, // plain variable: numeric variable
        85 => 0x06_42, // plain variable: string variable
        86 => 0x08_4c, // statement: first numeric
        87 => 0x09_5e, // statement: first string
        88 => 0x0a_73, // statement: first array
        89 => 0x1f_44, // after then: remark
        90 => 0x20_4f, // after then: read word
        91 => 0x21_3f, // after then: let word
        92 => 0x22_63, // after then: if word
        93 => 0x23_7a, // after then: for word
        94 => 0x24_4d, // after then: next word
        95 => 0x25_54, // after then: jump
        96 => 0x26_37, // after then: alone
        97 => 0x27_4e, // after then: dim word
        98 => 0x28_78, // after then: on word
        99 => 0x29_70, // after then: poke word
        100 => 0x2a_53, // after then: print word
        101 => 0x2b_51, // after then: restore word
        102 => 0x2c_61, // after then: input word
        103 => 0x2d_60, // after then: open word
        104 => 0x2e_71, // after then: xio word
        105 => 0x2f_52, // after then: close word
        106 => 0x30_67, // after then: get status
        107 => 0x31_6f, // after then: put word
        108 => 0x32_77, // after then: note point
        109 => 0x1f_44, // statement: remark
        110 => 0x20_4f, // statement: read word
        111 => 0x21_3f, // statement: let word
        112 => 0x22_63, // statement: if word
        113 => 0x23_7a, // statement: for word
        114 => 0x24_4d, // statement: next word
        115 => 0x25_54, // statement: jump
        116 => 0x26_37, // statement: alone
        117 => 0x27_4e, // statement: dim word
        118 => 0x28_78, // statement: on word
        119 => 0x29_70, // statement: poke word
        120 => 0x2a_53, // statement: print word
        121 => 0x2b_51, // statement: restore word
        122 => 0x2c_61, // statement: input word
        123 => 0x2d_60, // statement: open word
        124 => 0x2e_71, // statement: xio word
        125 => 0x2f_52, // statement: close word
        126 => 0x30_67, // statement: get status
        127 => 0x31_6f, // statement: put word
        128 => 0x32_77, // statement: note point
        129 => 0x03_30, // operand: number
        130 => 0x04_3e, // operand: quoted
        131 => 0x05_30, // operand: numeric variable
        132 => 0x06_4a, // operand: string variable
        133 => 0x07_64, // operand: array
        134 => 0x04_30, // string: quoted
        135 => 0x1e_30, // raw text: raw text
        136 => 0x06_3d, // string: string variable
        137 => 0x0b_56, // operand: open sign
        138 => 0x0d_30, // input separator: comma
        139 => 0x0c_30, // close: close sign
        140 => 0x0f_30, // input separator: semicolon
        141 => 0x19_30, // then: then word
        142 => 0x0b_34, // function open: open sign
        143 => 0x05_30, // for variable: numeric variable
        144 => 0x12_39, // operand: plus minus
        145 => 0x10_47, // number assigned: equals
        146 => 0x14_38, // operand: not word
        147 => 0x17_30, // to: to word
        148 => 0x10_3c, // string assigned: equals
        149 => 0x10_31, // for equals: equals
        150 => 0x16_30, // goto gosub: goto gosub
        151 => 0x0b_33, // dim array open: open sign
        152 => 0x1a_6b, // operand: string function
        153 => 0x1b_5c, // operand: function of string
        154 => 0x1c_65, // operand: function of number
        155 => 0x0b_35, // dim string open: open sign
        156 => 0x1a_65, // string: string function
        158 => 0x0d_30, // comma: comma
        159 => 0x0d_79, // parameters: comma
        163 => 0x1d_45, // channel: channel sign
        _ => 0x4e_2e,
    }
}

// The word of an act: two hexadecimal digits for each frame that it wants, from the top of the stack down, but for a ninth.
pub(crate) fn word_of(act: u8) -> u64
    requires { first_act ≤ act }
    ensures { result ≡ slice_index words (act - first_act) }
{
    match act {
        b'7' => 0x02, // end
        b'8' => 0x05, // operand
        b'9' => 0x05, // operand
        b':' => 0x06, // more terms
        b';' => 0x0b, // string
        b'<' => 0x0b, // string
        b'=' => 0x0c, // substring
        b'>' => 0x0d, // string comparison
        b'?' => 0x10, // let target
        b'@' => 0x19, // dim
        b'A' => 0x1d, // plain variable
        b'B' => 0x1e, // more variables
        b'C' => 0x1f, // print list
        b'D' => 0x03_04, // raw text, raw end
        b'E' => 0x05_06, // N
        b'F' => 0x05_06, // N
        b'G' => 0x05_06, // N
        b'H' => 0x06_21, // more terms, print separator
        b'I' => 0x0b_06, // string, more terms
        b'J' => 0x0c_0d, // substring, string comparison
        b'K' => 0x0d_06, // string comparison, more terms
        b'L' => 0x0e_02, // number assigned, end
        b'M' => 0x16_02, // numeric variable, end
        b'N' => 0x19_02, // dim, end
        b'O' => 0x1d_02, // plain variable, end
        b'P' => 0x20_21, // print comparison, print separator
        b'Q' => 0x23_02, // restore number, end
        b'R' => 0x24_02, // channel, end
        b'S' => 0x27_02, // print, end
        b'T' => 0x05_06_02, // N, end
        b'U' => 0x05_06_08, // N, second
        b'V' => 0x05_06_09, // N, close
        b'W' => 0x05_06_09, // N, close
        b'X' => 0x05_06_18, // N, more lines
        b'Y' => 0x05_06_21, // N, print separator
        b'Z' => 0x05_06_21, // N, print separator
        b'[' => 0x05_06_26, // N, input separator
        b'\\' => 0x0a_0b_09, // function open, string, close
        b']' => 0x0c_0d_06, // substring, string comparison, more terms
        b'^' => 0x0c_0f_02, // substring, string assigned, end
        b'_' => 0x0c_20_21, // substring, print comparison, print separator
        b'`' => 0x24_28_02, // channel, parameters, end
        b'a' => 0x25_1d_02, // input channel, plain variable, end
        b'b' => 0x05_06_09_06, // N, close, more terms
        b'c' => 0x05_06_11_01, // N, then, after then
        b'd' => 0x07_05_06_08, // array open, N, second
        b'e' => 0x0a_05_06_09, // function open, N, close
        b'f' => 0x0a_0b_09_06, // function open, string, close, more terms
        b'g' => 0x24_22_16_02, // channel, comma, numeric variable, end
        b'h' => 0x05_06_09_06_21, // N, close, more terms, print separator
        b'i' => 0x07_05_06_08_06, // array open, N, second, more terms
        b'j' => 0x0a_05_06_09_06, // function open, N, close, more terms
        b'k' => 0x0a_05_06_09_0d, // function open, N, close, string comparison
        b'l' => 0x0a_0b_09_06_21, // function open, string, close, more terms, print separator
        b'm' => 0x1a_05_06_08_1c, // dim array open, N, second, more dims
        b'n' => 0x1b_05_06_09_1c, // dim string open, N, close, more dims
        b'o' => 0x24_22_05_06_02, // channel, comma, N, end
        b'p' => 0x05_06_22_05_06_02, // N, comma, N, end
        b'q' => 0x05_06_22_24_28_02, // N, comma, channel, parameters, end
        b'r' => 0x07_05_06_08_06_21, // array open, N, second, more terms, print separator
        b's' => 0x07_05_06_08_0e_02, // array open, N, second, number assigned, end
        b't' => 0x0a_05_06_09_06_21, // function open, N, close, more terms, print separator
        b'u' => 0x0a_05_06_09_0d_06, // function open, N, close, string comparison, more terms
        b'v' => 0x0a_05_06_09_20_21, // function open, N, close, print comparison, print separator
        b'w' => 0x24_22_16_22_16_02, // channel, comma, numeric variable, comma, numeric variable, end
        b'x' => 0x05_06_17_05_06_18_02, // N, goto gosub, N, more lines, end
        b'y' => 0x05_06_22_05_06_22_0b, // N, comma, N, comma, string
        b'z' => 0x13_05_06_14_05_06_15_02, // for variable, for equals, N, to, N, step, end
        _ => 0,
    }
}

// The rests of acts that give a token of the grammar's own.
const NUMBER_ASSIGNED: u32 = 0o00_00 + OperatorToken::NUMBER_ASSIGNED.0 as u32;

const ARRAY_OPEN: u32 = 0o00_00 + OperatorToken::ARRAY_OPEN.0 as u32;

const DIM_ARRAY_OPEN: u32 = 0o00_00 + OperatorToken::DIM_ARRAY_OPEN.0 as u32;

const FUNCTION_OPEN: u32 = 0o00_00 + OperatorToken::FUNCTION_OPEN.0 as u32;

const DIM_STRING_OPEN: u32 = 0o00_00 + OperatorToken::DIM_STRING_OPEN.0 as u32;

const STRING_ASSIGNED_THEN_STRING: u32 = 0o01_00 + OperatorToken::STRING_ASSIGNED.0 as u32;

const NUMBER_ASSIGNED_THEN_N: u32 = 0o02_00 + OperatorToken::NUMBER_ASSIGNED.0 as u32;

const SUBSTRING_OPEN_THEN_N_SECOND: u32 = 0o03_00 + OperatorToken::SUBSTRING_OPEN.0 as u32;

const INNER_COMMA_THEN_N_CLOSE: u32 = 0o03_00 + OperatorToken::INNER_COMMA.0 as u32;

// The rest of what an act says, in octal: two digits for the ninth frame, two for how many there are, and two for what it gives: 0 for the item's own
// token, 1 for the one for strings, 2 for the prefix one, any other number for that token.
pub(crate) fn rest_of(act: u8) -> u32
    requires { first_act ≤ act }
    ensures { result ≡ slice_index rests (act - first_act) }
{
    match act {
        b'1' => NUMBER_ASSIGNED,
        b'2' => ARRAY_OPEN,
        b'3' => DIM_ARRAY_OPEN,
        b'4' => FUNCTION_OPEN,
        b'5' => DIM_STRING_OPEN,
        b'6' => 0o01_00, // itself
        b'7' => 0o01_00, // itself
        b'8' => 0o01_00, // itself
        b'9' => 0o01_02, // as prefix
        b':' => 0o01_00, // itself
        b';' => 0o01_01, // for strings
        b'<' => STRING_ASSIGNED_THEN_STRING,
        b'=' => 0o01_00, // itself
        b'>' => 0o01_00, // itself
        b'?' => 0o01_00, // itself
        b'@' => 0o01_00, // itself
        b'A' => 0o01_00, // itself
        b'B' => 0o01_00, // itself
        b'C' => 0o01_00, // itself
        b'D' => 0o02_00, // itself
        b'E' => 0o02_00, // itself
        b'F' => 0o02_02, // as prefix
        b'G' => NUMBER_ASSIGNED_THEN_N,
        b'H' => 0o02_00, // itself
        b'I' => 0o02_01, // for strings
        b'J' => 0o02_00, // itself
        b'K' => 0o02_00, // itself
        b'L' => 0o02_00, // itself
        b'M' => 0o02_00, // itself
        b'N' => 0o02_00, // itself
        b'O' => 0o02_00, // itself
        b'P' => 0o02_00, // itself
        b'Q' => 0o02_00, // itself
        b'R' => 0o02_00, // itself
        b'S' => 0o02_00, // itself
        b'T' => 0o03_00, // itself
        b'U' => SUBSTRING_OPEN_THEN_N_SECOND,
        b'V' => 0o03_00, // itself
        b'W' => INNER_COMMA_THEN_N_CLOSE,
        b'X' => 0o03_00, // itself
        b'Y' => 0o03_00, // itself
        b'Z' => 0o03_02, // as prefix
        b'[' => 0o03_00, // itself
        b'\\' => 0o03_00, // itself
        b']' => 0o03_00, // itself
        b'^' => 0o03_00, // itself
        b'_' => 0o03_00, // itself
        b'`' => 0o03_00, // itself
        b'a' => 0o03_00, // itself
        b'b' => 0o04_00, // itself
        b'c' => 0o04_00, // itself
        b'd' => 0o04_00, // itself
        b'e' => 0o04_00, // itself
        b'f' => 0o04_00, // itself
        b'g' => 0o04_00, // itself
        b'h' => 0o05_00, // itself
        b'i' => 0o05_00, // itself
        b'j' => 0o05_00, // itself
        b'k' => 0o05_00, // itself
        b'l' => 0o05_00, // itself
        b'm' => 0o05_00, // itself
        b'n' => 0o05_00, // itself
        b'o' => 0o05_00, // itself
        b'p' => 0o06_00, // itself
        b'q' => 0o06_00, // itself
        b'r' => 0o06_00, // itself
        b's' => 0o06_00, // itself
        b't' => 0o06_00, // itself
        b'u' => 0o06_00, // itself
        b'v' => 0o06_00, // itself
        b'w' => 0o06_00, // itself
        b'x' => 0o07_00, // itself
        b'y' => 0o07_00, // itself
        b'z' => 0o22_11_00, // itself
        _ => 0,
    }
}
