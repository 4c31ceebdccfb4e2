// What a kind of item tells: how long a name, number or string is, and the number of a token.
ghost use Rattle.std.specs.Prelude.{◌≡◌};
ghost use Rattle.enter_item.specs.KindLaws.{name_length, array?, numeral_of, quoted_length, own_kind};

use constant_bytes::Numeral;
use enter_scan::Kind;
use tokens::OperatorToken;

// How many bytes of name an item has.
pub fn name_length(kind: Kind) -> usize
    ensures { result ≡ name_length kind }
{
    match kind {
        Kind::Numeric(n) => n,
        Kind::Text(n) => n,
        Kind::Array(n) => n,
        _ => 0,
    }
}

// Whether an item is an array's name.
pub fn is_array(kind: Kind) -> bool
    ensures { result ≡ array? kind }
{
    matches!(kind, Kind::Array(_))
}

// How many bytes stand between an item's quotes.
pub fn quoted_length(kind: Kind) -> usize
    ensures { result ≡ quoted_length kind }
{
    match kind {
        Kind::Quoted(n) => n,
        _ => 0,
    }
}

// The number of a word's or symbol's token, 0 of any other item. Stays a number and no option: each reader looks at the class first, and `Seen.own`, which
// hands it on, is one of the three things that the contract `Shows` has of every item.
pub fn own_token(kind: Kind) -> u8
    ensures { result ≡ own_kind kind }
{
    match kind {
        Kind::Operator(t) => t.0,
        Kind::Function(t) => t.0,
        Kind::Statement(t) => t.0,
        Kind::End => OperatorToken::LINE_END.0,
        _ => 0,
    }
}

// No digit.
const NO_NUMERAL: Numeral = Numeral {
    whole: 0,
    fraction: 0,
    down: false,
    power: 0,
};

// A number as it is written.
pub fn numeral_of(kind: Kind) -> Numeral
    ensures { result ≡ numeral_of kind }
{
    match kind {
        Kind::Number(n) => n,
        _ => NO_NUMERAL,
    }
}
