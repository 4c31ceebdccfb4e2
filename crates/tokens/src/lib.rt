// Tokens: their numbers as named constants of three types, the class and the spelling of each, and the words and symbols that they
// are read from.
#![tactic(auto)]

pub mod class;
mod number;
mod tables;

ghost use Rattle.std.specs.Prelude.{◌≡◌, [], ◌∷◌, ◌+◌, ◌-◌, ◌≤◌, length, get_or, take, drop};
ghost use Rattle.paper.specs.Words.{found, find_word, word_of, statements, operators, word_operator?};
ghost use Rattle.paper.specs.Tokens.{operator_class, read_as};
ghost use Rattle.paper.specs.Line.{raw_statement?};
ghost use Rattle.tokens.specs.Tables.{total, read_words, fixed_words, words_of, first_word, token_found, statement_found, reserved_found, pair_found, symbol_found};
ghost use Rattle.tokens.specs.Parts.{statement_part, operator_part, bytes_at};

use buffers::byte_at;
use number::{function, operator, statement};

// A token that begins a statement.
#[derive(Clone, Copy)]
pub struct StatementToken(pub u8);

// A token of an operator, or one that says what bytes follow or that a line ends.
#[derive(Clone, Copy)]
pub struct OperatorToken(pub u8);

// A token of a function.
#[derive(Clone, Copy)]
pub struct FunctionToken(pub u8);

impl StatementToken {
    pub const REM: StatementToken = StatementToken(0x00);

    pub const DATA: StatementToken = StatementToken(0x01);

    pub const INPUT: StatementToken = StatementToken(0x02);

    pub const COLOR: StatementToken = StatementToken(0x03);

    pub const LIST: StatementToken = StatementToken(0x04);

    pub const ENTER: StatementToken = StatementToken(0x05);

    pub const LET: StatementToken = StatementToken(0x06);

    pub const IF: StatementToken = StatementToken(0x07);

    pub const FOR: StatementToken = StatementToken(0x08);

    pub const NEXT: StatementToken = StatementToken(0x09);

    pub const GOTO: StatementToken = StatementToken(0x0A);

    pub const GOSUB: StatementToken = StatementToken(0x0C);

    pub const TRAP: StatementToken = StatementToken(0x0D);

    pub const BYE: StatementToken = StatementToken(0x0E);

    pub const CONT: StatementToken = StatementToken(0x0F);

    pub const COM: StatementToken = StatementToken(0x10);

    pub const CLOSE: StatementToken = StatementToken(0x11);

    pub const CLR: StatementToken = StatementToken(0x12);

    pub const DEG: StatementToken = StatementToken(0x13);

    pub const DIM: StatementToken = StatementToken(0x14);

    pub const END: StatementToken = StatementToken(0x15);

    pub const NEW: StatementToken = StatementToken(0x16);

    pub const OPEN: StatementToken = StatementToken(0x17);

    pub const LOAD: StatementToken = StatementToken(0x18);

    pub const SAVE: StatementToken = StatementToken(0x19);

    pub const STATUS: StatementToken = StatementToken(0x1A);

    pub const NOTE: StatementToken = StatementToken(0x1B);

    pub const POINT: StatementToken = StatementToken(0x1C);

    pub const XIO: StatementToken = StatementToken(0x1D);

    pub const ON: StatementToken = StatementToken(0x1E);

    pub const POKE: StatementToken = StatementToken(0x1F);

    pub const PRINT: StatementToken = StatementToken(0x20);

    pub const RAD: StatementToken = StatementToken(0x21);

    pub const READ: StatementToken = StatementToken(0x22);

    pub const RESTORE: StatementToken = StatementToken(0x23);

    pub const RETURN: StatementToken = StatementToken(0x24);

    pub const RUN: StatementToken = StatementToken(0x25);

    pub const STOP: StatementToken = StatementToken(0x26);

    pub const POP: StatementToken = StatementToken(0x27);

    pub const QUESTION: StatementToken = StatementToken(0x28);

    pub const GET: StatementToken = StatementToken(0x29);

    pub const PUT: StatementToken = StatementToken(0x2A);

    pub const GRAPHICS: StatementToken = StatementToken(0x2B);

    pub const PLOT: StatementToken = StatementToken(0x2C);

    pub const POSITION: StatementToken = StatementToken(0x2D);

    pub const DOS: StatementToken = StatementToken(0x2E);

    pub const DRAWTO: StatementToken = StatementToken(0x2F);

    pub const SETCOLOR: StatementToken = StatementToken(0x30);

    pub const LOCATE: StatementToken = StatementToken(0x31);

    pub const SOUND: StatementToken = StatementToken(0x32);

    pub const LPRINT: StatementToken = StatementToken(0x33);

    pub const CSAVE: StatementToken = StatementToken(0x34);

    pub const CLOAD: StatementToken = StatementToken(0x35);

    pub const LET_WITHOUT_WORD: StatementToken = StatementToken(0x36);
    // The one statement of an error line.
    pub const ERROR: StatementToken = StatementToken(0x37);
}

impl OperatorToken {
    pub const NUMBER: OperatorToken = OperatorToken(0x0E);

    pub const STRING: OperatorToken = OperatorToken(0x0F);

    pub const COMMA: OperatorToken = OperatorToken(0x12);

    pub const COLON: OperatorToken = OperatorToken(0x14);

    pub const SEMICOLON: OperatorToken = OperatorToken(0x15);

    pub const LINE_END: OperatorToken = OperatorToken(0x16);

    pub const GOTO: OperatorToken = OperatorToken(0x17);

    pub const GOSUB: OperatorToken = OperatorToken(0x18);

    pub const TO: OperatorToken = OperatorToken(0x19);

    pub const STEP: OperatorToken = OperatorToken(0x1A);

    pub const THEN: OperatorToken = OperatorToken(0x1B);

    pub const CHANNEL_SIGN: OperatorToken = OperatorToken(0x1C);

    pub const LESS_OR_EQUAL: OperatorToken = OperatorToken(0x1D);

    pub const UNEQUAL: OperatorToken = OperatorToken(0x1E);

    pub const GREATER_OR_EQUAL: OperatorToken = OperatorToken(0x1F);

    pub const LESS: OperatorToken = OperatorToken(0x20);

    pub const GREATER: OperatorToken = OperatorToken(0x21);

    pub const EQUAL: OperatorToken = OperatorToken(0x22);

    pub const POWER: OperatorToken = OperatorToken(0x23);

    pub const TIMES: OperatorToken = OperatorToken(0x24);

    pub const PLUS: OperatorToken = OperatorToken(0x25);

    pub const MINUS: OperatorToken = OperatorToken(0x26);

    pub const DIVIDED_BY: OperatorToken = OperatorToken(0x27);

    pub const NOT: OperatorToken = OperatorToken(0x28);

    pub const OR: OperatorToken = OperatorToken(0x29);

    pub const AND: OperatorToken = OperatorToken(0x2A);

    pub const OPEN: OperatorToken = OperatorToken(0x2B);

    pub const CLOSE: OperatorToken = OperatorToken(0x2C);

    pub const NUMBER_ASSIGNED: OperatorToken = OperatorToken(0x2D);

    pub const STRING_ASSIGNED: OperatorToken = OperatorToken(0x2E);

    pub const STRING_LESS_OR_EQUAL: OperatorToken = OperatorToken(0x2F);

    pub const STRING_UNEQUAL: OperatorToken = OperatorToken(0x30);

    pub const STRING_GREATER_OR_EQUAL: OperatorToken = OperatorToken(0x31);

    pub const STRING_LESS: OperatorToken = OperatorToken(0x32);

    pub const STRING_GREATER: OperatorToken = OperatorToken(0x33);

    pub const STRING_EQUAL: OperatorToken = OperatorToken(0x34);

    pub const PREFIX_PLUS: OperatorToken = OperatorToken(0x35);

    pub const PREFIX_MINUS: OperatorToken = OperatorToken(0x36);

    pub const SUBSTRING_OPEN: OperatorToken = OperatorToken(0x37);

    pub const ARRAY_OPEN: OperatorToken = OperatorToken(0x38);

    pub const DIM_ARRAY_OPEN: OperatorToken = OperatorToken(0x39);

    pub const FUNCTION_OPEN: OperatorToken = OperatorToken(0x3A);

    pub const DIM_STRING_OPEN: OperatorToken = OperatorToken(0x3B);

    pub const INNER_COMMA: OperatorToken = OperatorToken(0x3C);

    pub const RAW_END: OperatorToken = OperatorToken(0x9B);
}

// How far the prefix operators stand behind `+ -`.
pub const TO_PREFIX: u8 = OperatorToken::PREFIX_PLUS.0 - OperatorToken::PLUS.0;

// How far the comparisons of strings stand behind those of numbers.
pub const TO_STRINGS: u8 = OperatorToken::STRING_LESS_OR_EQUAL.0 - OperatorToken::LESS_OR_EQUAL.0;

impl FunctionToken {
    pub const STR: FunctionToken = FunctionToken(0x3D);

    pub const CHR: FunctionToken = FunctionToken(0x3E);

    pub const USR: FunctionToken = FunctionToken(0x3F);

    pub const ASC: FunctionToken = FunctionToken(0x40);

    pub const VAL: FunctionToken = FunctionToken(0x41);

    pub const LEN: FunctionToken = FunctionToken(0x42);

    pub const ADR: FunctionToken = FunctionToken(0x43);

    pub const ATN: FunctionToken = FunctionToken(0x44);

    pub const COS: FunctionToken = FunctionToken(0x45);

    pub const PEEK: FunctionToken = FunctionToken(0x46);

    pub const SIN: FunctionToken = FunctionToken(0x47);

    pub const RND: FunctionToken = FunctionToken(0x48);

    pub const FRE: FunctionToken = FunctionToken(0x49);

    pub const EXP: FunctionToken = FunctionToken(0x4A);

    pub const LOG: FunctionToken = FunctionToken(0x4B);

    pub const CLOG: FunctionToken = FunctionToken(0x4C);

    pub const SQR: FunctionToken = FunctionToken(0x4D);

    pub const SGN: FunctionToken = FunctionToken(0x4E);

    pub const ABS: FunctionToken = FunctionToken(0x4F);

    pub const INT: FunctionToken = FunctionToken(0x50);

    pub const PADDLE: FunctionToken = FunctionToken(0x51);

    pub const STICK: FunctionToken = FunctionToken(0x52);

    pub const PTRIG: FunctionToken = FunctionToken(0x53);

    pub const STRIG: FunctionToken = FunctionToken(0x54);
}

// The words of statements and then those of operators and functions, end to end in the order of their tokens.
pub const WORDS: [u8; 355] =
    *b"REMDATAINPUTCOLORLISTENTERLETIFFORNEXTGOTOGOSUBTRAPBYECONTCOMCLOSECLRDEGDIMENDNEWOPENLOADSAVE\
    STATUSNOTEPOINTXIOONPOKEPRINTRADREADRESTORERETURNRUNSTOPPOP?GETPUTGRAPHICSPLOTPOSITIONDOSDRAWTO\
    SETCOLORLOCATESOUNDLPRINTCSAVECLOAD\
    ,:;GOTOGOSUBTOSTEPTHEN#<=<>>=<>=^*+-/NOTORAND()STR$CHR$USRASCVALLENADRATNCOSPEEKSINRNDFREEXPLOG\
    CLOGSQRSGNABSINTPADDLESTICKPTRIGSTRIG";

// What a name is as a word operator or function.
#[derive(Clone, Copy)]
pub enum Reserved {
    Operator(OperatorToken),
    Function(FunctionToken),
}

// A symbol at two bytes: of both, or of the first.
#[derive(Clone, Copy)]
pub enum Symbol {
    Two(OperatorToken),
    One(OperatorToken),
}

// Where a spelling stands: among the fixed words or in the name table.
#[derive(Clone, Copy)]
pub enum Source {
    Fixed,
    Names,
}

// A part of one of two slices.
#[derive(Clone, Copy)]
pub struct Part {
    pub source: Source,
    pub from: usize,
    pub end: usize,
}

// The class of a statement's word.
pub fn statement_class(token: StatementToken) -> u8
    ensures { result ≡ (word_of statements token.0).class }
{
    match token.0 {
        statement::REM => class::REMARK,
        statement::DATA => class::REMARK,
        statement::INPUT => class::INPUT_WORD,
        statement::LET => class::LET_WORD,
        statement::IF => class::IF_WORD,
        statement::FOR => class::FOR_WORD,
        statement::NEXT => class::NEXT_WORD,
        statement::GOTO => class::JUMP,
        statement::GOSUB => class::JUMP,
        statement::TRAP => class::JUMP,
        statement::CLOSE => class::CLOSE_WORD,
        statement::CLR => class::ALONE,
        statement::DEG => class::ALONE,
        statement::DIM => class::DIM_WORD,
        statement::END => class::ALONE,
        statement::OPEN => class::OPEN_WORD,
        statement::STATUS => class::GET_STATUS,
        statement::NOTE => class::NOTE_POINT,
        statement::POINT => class::NOTE_POINT,
        statement::XIO => class::XIO_WORD,
        statement::ON => class::ON_WORD,
        statement::POKE => class::POKE_WORD,
        statement::PRINT => class::PRINT_WORD,
        statement::RAD => class::ALONE,
        statement::READ => class::READ_WORD,
        statement::RESTORE => class::RESTORE_WORD,
        statement::RETURN => class::ALONE,
        statement::STOP => class::ALONE,
        statement::POP => class::ALONE,
        statement::QUESTION => class::PRINT_WORD,
        statement::GET => class::GET_STATUS,
        statement::PUT => class::PUT_WORD,
        _ => class::UNFIT,
    }
}

// The class of an operator or function. The end of raw text, far behind the functions, is tested before the `match`, whose keys then stand close
// enough for a table; by a range, as the compiler would fold a test for equality alone back into the `match`.
pub fn operator_class(token: u8) -> u8
    ensures { result ≡ operator_class token }
{
    if FunctionToken::STRIG.0 < token {
        if token == operator::RAW_END {
            return class::RAW_END;
        }
        return class::UNFIT;
    }
    match token {
        operator::COMMA => class::COMMA,
        operator::COLON => class::COLON,
        operator::SEMICOLON => class::SEMICOLON,
        operator::LINE_END => class::LINE_END,
        operator::GOTO => class::GOTO_GOSUB,
        operator::GOSUB => class::GOTO_GOSUB,
        operator::TO => class::TO_WORD,
        operator::STEP => class::STEP_WORD,
        operator::THEN => class::THEN_WORD,
        operator::CHANNEL_SIGN => class::CHANNEL_SIGN,
        operator::LESS_OR_EQUAL => class::COMPARISON,
        operator::UNEQUAL => class::COMPARISON,
        operator::GREATER_OR_EQUAL => class::COMPARISON,
        operator::LESS => class::COMPARISON,
        operator::GREATER => class::COMPARISON,
        operator::EQUAL => class::EQUALS,
        operator::POWER => class::FACTOR_SIGN,
        operator::TIMES => class::FACTOR_SIGN,
        operator::PLUS => class::PLUS_MINUS,
        operator::MINUS => class::PLUS_MINUS,
        operator::DIVIDED_BY => class::FACTOR_SIGN,
        operator::NOT => class::NOT_WORD,
        operator::OR => class::OR_AND,
        operator::AND => class::OR_AND,
        operator::OPEN => class::OPEN_SIGN,
        operator::CLOSE => class::CLOSE_SIGN,
        function::STR => class::STRING_FUNCTION,
        function::CHR => class::STRING_FUNCTION,
        function::ASC => class::FUNCTION_OF_STRING,
        function::VAL => class::FUNCTION_OF_STRING,
        function::LEN => class::FUNCTION_OF_STRING,
        function::ATN => class::FUNCTION_OF_NUMBER,
        function::COS => class::FUNCTION_OF_NUMBER,
        function::PEEK => class::FUNCTION_OF_NUMBER,
        function::SIN => class::FUNCTION_OF_NUMBER,
        function::RND => class::FUNCTION_OF_NUMBER,
        function::FRE => class::FUNCTION_OF_NUMBER,
        function::EXP => class::FUNCTION_OF_NUMBER,
        function::LOG => class::FUNCTION_OF_NUMBER,
        function::CLOG => class::FUNCTION_OF_NUMBER,
        function::SQR => class::FUNCTION_OF_NUMBER,
        function::SGN => class::FUNCTION_OF_NUMBER,
        function::ABS => class::FUNCTION_OF_NUMBER,
        function::INT => class::FUNCTION_OF_NUMBER,
        _ => class::UNFIT,
    }
}

// Whether an operator is a word: GOTO GOSUB TO STEP THEN, NOT OR AND.
pub fn is_word_operator(token: u8) -> bool
    ensures { result ≡ word_operator? token }
{
    matches!(token, operator::GOTO..=operator::THEN | operator::NOT..=operator::AND)
}

// Whether a statement holds raw text: REM, DATA.
pub fn is_raw_statement(token: StatementToken) -> bool
    ensures { result ≡ raw_statement? token.0 }
{
    statement_class(token) == class::REMARK
}

// The operator that one with this token is read as: the first with the same spelling.
pub fn read_as(token: u8) -> u8
    ensures { result ≡ read_as token }
{
    match token {
        operator::NUMBER_ASSIGNED => operator::EQUAL,
        operator::STRING_ASSIGNED => operator::EQUAL,
        operator::STRING_LESS_OR_EQUAL => operator::LESS_OR_EQUAL,
        operator::STRING_UNEQUAL => operator::UNEQUAL,
        operator::STRING_GREATER_OR_EQUAL => operator::GREATER_OR_EQUAL,
        operator::STRING_LESS => operator::LESS,
        operator::STRING_GREATER => operator::GREATER,
        operator::STRING_EQUAL => operator::EQUAL,
        operator::PREFIX_PLUS => operator::PLUS,
        operator::PREFIX_MINUS => operator::MINUS,
        operator::SUBSTRING_OPEN => operator::OPEN,
        operator::ARRAY_OPEN => operator::OPEN,
        operator::DIM_ARRAY_OPEN => operator::OPEN,
        operator::FUNCTION_OPEN => operator::OPEN,
        operator::DIM_STRING_OPEN => operator::OPEN,
        operator::INNER_COMMA => operator::COMMA,
        _ => token,
    }
}

// The token of the fixed word that is the whole of a name, looked for from a place of the fixed words on: the lengths of the words there are given,
// and the token of the first. The one borrow of the words by a search: the compiler lays the words down wherever they are borrowed.
fn find_fixed(start: usize, lengths: &[u8], first: u8, name: &[u8]) -> Option<u8>
    requires { (start + total lengths.now ≤ 355) × (first + length lengths.now ≤ 255) }
    ensures { result ≡ token_found (find_word (words_of first lengths.now (drop start fixed_words)) name.now) }
{
    tables::find(&WORDS, start, lengths, first, name)
}

// The statement word that is the whole of a name, looked for from the first one on that has the name's first byte and length.
fn find_statement(first: u8, name: &[u8]) -> Option<StatementToken>
    requires { first_word statements (get_or name.now 0 0) (length name.now) ≡ found first }
    ensures { result ≡ statement_found (find_word statements name.now) }
{
    let token = find_fixed(
        tables::statement_start(first) as usize,
        &tables::STATEMENT_LENGTHS[first as usize..],
        first,
        name,
    )?;
    Some(StatementToken(token))
}

// The statement word that is the whole of a name.
pub fn statement_word(name: &[u8]) -> Option<StatementToken>
    ensures { result ≡ statement_found (find_word statements name.now) }
{
    find_statement(tables::first_statement(byte_at(name, 0), name.len())?, name)
}

// The word operator or function that is the whole of a name, looked for from the first one on that has the name's first byte and length.
fn find_reserved(first: u8, name: &[u8]) -> Option<Reserved>
    requires { first_word read_words (get_or name.now 0 0) (length name.now) ≡ found first }
    ensures { result ≡ reserved_found (find_word operators name.now) }
{
    let i = first - tables::FIRST_OPERATOR;
    let token = find_fixed(
        tables::STATEMENT_BYTES + tables::operator_start(i) as usize,
        &tables::OPERATOR_LENGTHS[i as usize..],
        first,
        name,
    )?;
    if token < FunctionToken::STR.0 {
        Some(Reserved::Operator(OperatorToken(token)))
    } else {
        Some(Reserved::Function(FunctionToken(token)))
    }
}

// The word operator or function that is the whole of a name.
pub fn reserved_word(name: &[u8]) -> Option<Reserved>
    ensures { result ≡ reserved_found (find_word operators name.now) }
{
    find_reserved(tables::first_reserved(byte_at(name, 0), name.len())?, name)
}

// The symbol of two bytes that these are; a letter begins none.
fn pair(b: u8, c: u8) -> Option<u8>
    ensures { result ≡ token_found (pair_found b (find_word operators (b ∷ c ∷ []))) }
{
    match b {
        b'<' => match c {
            b'=' => Some(OperatorToken::LESS_OR_EQUAL.0),
            b'>' => Some(OperatorToken::UNEQUAL.0),
            _ => None,
        },
        b'>' => match c {
            b'=' => Some(OperatorToken::GREATER_OR_EQUAL.0),
            _ => None,
        },
        _ => None,
    }
}

// The symbol of one byte that this is.
fn sign(b: u8) -> Option<u8>
    ensures { result ≡ token_found (find_word operators (b ∷ [])) }
{
    match b {
        b',' => Some(OperatorToken::COMMA.0),
        b':' => Some(OperatorToken::COLON.0),
        b';' => Some(OperatorToken::SEMICOLON.0),
        b'#' => Some(OperatorToken::CHANNEL_SIGN.0),
        b'<' => Some(OperatorToken::LESS.0),
        b'>' => Some(OperatorToken::GREATER.0),
        b'=' => Some(OperatorToken::EQUAL.0),
        b'^' => Some(OperatorToken::POWER.0),
        b'*' => Some(OperatorToken::TIMES.0),
        b'+' => Some(OperatorToken::PLUS.0),
        b'-' => Some(OperatorToken::MINUS.0),
        b'/' => Some(OperatorToken::DIVIDED_BY.0),
        b'(' => Some(OperatorToken::OPEN.0),
        b')' => Some(OperatorToken::CLOSE.0),
        _ => None,
    }
}

// The longest symbol that two bytes begin with: of two, or of one.
pub fn longest_symbol(b: u8, c: u8) -> Option<Symbol>
    ensures { result ≡ symbol_found (pair_found b (find_word operators (b ∷ c ∷ []))) (find_word operators (b ∷ [])) }
{
    match pair(b, c) {
        Some(token) => Some(Symbol::Two(OperatorToken(token))),
        None => Some(Symbol::One(OperatorToken(sign(b)?))),
    }
}

// Where a statement's word stands among the fixed words; an empty part if the token has none.
pub fn statement_part(token: StatementToken) -> Part
    ensures { result ≡ statement_part token.0 }
{
    let t = token.0;
    if tables::STATEMENTS <= t {
        return Part {
            source: Source::Fixed,
            from: 0,
            end: 0,
        };
    }
    Part {
        source: Source::Fixed,
        from: tables::statement_start(t) as usize,
        end: tables::statement_start(t + 1) as usize,
    }
}

// Where the spelling of an operator or function stands among the fixed words; an empty part if the token has none.
pub fn operator_part(token: u8) -> Part
    ensures { result ≡ operator_part token }
{
    let read = read_as(token);
    if read < tables::FIRST_OPERATOR {
        return Part {
            source: Source::Fixed,
            from: 0,
            end: 0,
        };
    }
    let i = read - tables::FIRST_OPERATOR;
    if tables::OPERATORS <= i {
        return Part {
            source: Source::Fixed,
            from: tables::STATEMENT_BYTES,
            end: tables::STATEMENT_BYTES,
        };
    }
    Part {
        source: Source::Fixed,
        from: tables::STATEMENT_BYTES + tables::operator_start(i) as usize,
        end: tables::STATEMENT_BYTES + tables::operator_start(i + 1) as usize,
    }
}

// The bytes of a slice from one place to another, as far as they are there.
fn between<'a>(s: &'a [u8], from: usize, end: usize) -> &'a [u8]
    ensures { result.now ≡ take (end - from) (drop from s.now) }
{
    let last = end.min(s.len());
    let first = from.min(last);
    &s[first..last]
}

// The spelling that stands at a part of the fixed words or of the name table, uncopied.
pub fn spelling<'a>(words: &'a [u8], names: &'a [u8], part: Part) -> &'a [u8]
    ensures { result.now ≡ bytes_at words.now names.now part }
{
    match part.source {
        Source::Fixed => between(words, part.from, part.end),
        Source::Names => between(names, part.from, part.end),
    }
}
