// Readers of expressions, terms, strings and subscripts: each reads on in a part of the text, writes tokens to the line and adds names.
#![tactic(auto)]

ghost use Rattle.std.specs.Prelude.{◌≡◌, false, [], ◌∷◌};
ghost use Rattle.paper.specs.Classes.{plus_minus, not_word};
ghost use Rattle.paper.specs.Frames.{want_operand, want_more_terms, want_array_open, want_second, want_close, want_function_open, want_string, want_substring, want_string_comparison};
ghost use Rattle.enter_item.specs.Says.{env_of, Asks, Says};
ghost use Rattle.enter_item.specs.Sees.{Shows};

use enter_item::{Draft, Seen, Spot, Text, compares, prefix_operator, see, string_operator};
use grammar::joins_terms;
use refusals::{Refusal, RefusedAt};
use tokens::{OperatorToken, class};

// An expression: terms, each joined to the one before it.
#[cycle(terms)]
fn expression(text: &Text, q: Spot, draft: &mut Draft) -> Result<Spot, RefusedAt>
    requires { Asks (env_of text.now) q draft.old }
    ensures { Says (want_operand ∷ want_more_terms ∷ []) (env_of text.now) q draft.old draft.new result }
{
    let mut p = q;
    loop {
        let next = term_at(text, p, draft)?;
        let seen = see(text.part, next.at, false);
        if !joins_terms(seen.class) {
            return Ok(next);
        }
        p = draft.token(next, seen.item.end, seen.own);
    }
}

// An expression and the closing parenthesis.
#[cycle(terms)]
fn enclosed(text: &Text, q: Spot, draft: &mut Draft) -> Result<Spot, RefusedAt>
    requires { Asks (env_of text.now) q draft.old }
    ensures { Says (want_operand ∷ want_more_terms ∷ want_close ∷ []) (env_of text.now) q draft.old draft.new result }
{
    let p = expression(text, q, draft)?;
    draft.expect(*text, p, class::CLOSE_SIGN, OperatorToken::CLOSE)
}

// One or two subscripts and the closing parenthesis.
#[cycle(terms)]
fn subscripts(text: &Text, q: Spot, draft: &mut Draft) -> Result<Spot, RefusedAt>
    requires { Asks (env_of text.now) q draft.old }
    ensures { Says (want_operand ∷ want_more_terms ∷ want_second ∷ []) (env_of text.now) q draft.old draft.new result }
{
    let p = expression(text, q, draft)?;
    second(text, p, draft)
}

// After a subscript: a comma and a second one, or the closing parenthesis.
#[cycle(terms)]
fn second(text: &Text, q: Spot, draft: &mut Draft) -> Result<Spot, RefusedAt>
    requires { Asks (env_of text.now) q draft.old }
    ensures { Says (want_second ∷ []) (env_of text.now) q draft.old draft.new result }
{
    let seen = see(text.part, q.at, false);
    let it = seen.item;
    match seen.class {
        class::COMMA => {
            let p = draft.token(q, it.end, OperatorToken::INNER_COMMA.0);
            enclosed(text, p, draft)
        }
        class::CLOSE_SIGN => Ok(draft.token(q, it.end, seen.own)),
        _ => Err(text.refuse(Refusal::NoReading, it.at)),
    }
}

// A function's argument.
#[cycle(terms)]
fn argument(text: &Text, q: Spot, draft: &mut Draft) -> Result<Spot, RefusedAt>
    requires { Asks (env_of text.now) q draft.old }
    ensures { Says (want_function_open ∷ want_operand ∷ want_more_terms ∷ want_close ∷ []) (env_of text.now) q draft.old draft.new result }
{
    let p = draft.expect(*text, q, class::OPEN_SIGN, OperatorToken::FUNCTION_OPEN)?;
    enclosed(text, p, draft)
}

// The argument of a function of a string.
#[cycle(terms)]
fn string_argument(text: &Text, q: Spot, draft: &mut Draft) -> Result<Spot, RefusedAt>
    requires { Asks (env_of text.now) q draft.old }
    ensures { Says (want_function_open ∷ want_string ∷ want_close ∷ []) (env_of text.now) q draft.old draft.new result }
{
    let p = draft.expect(*text, q, class::OPEN_SIGN, OperatorToken::FUNCTION_OPEN)?;
    let r = string(text, p, draft)?;
    draft.expect(*text, r, class::CLOSE_SIGN, OperatorToken::CLOSE)
}

// An array's subscripts.
#[cycle(terms)]
fn element(text: &Text, q: Spot, draft: &mut Draft) -> Result<Spot, RefusedAt>
    requires { Asks (env_of text.now) q draft.old }
    ensures { Says (want_array_open ∷ want_operand ∷ want_more_terms ∷ want_second ∷ []) (env_of text.now) q draft.old draft.new result }
{
    let p = draft.expect(*text, q, class::OPEN_SIGN, OperatorToken::ARRAY_OPEN)?;
    subscripts(text, p, draft)
}

// A string's subscripts, or nothing.
#[cycle(terms)]
fn substring(text: &Text, q: Spot, draft: &mut Draft) -> Result<Spot, RefusedAt>
    requires { Asks (env_of text.now) q draft.old }
    ensures { Says (want_substring ∷ []) (env_of text.now) q draft.old draft.new result }
{
    let seen = see(text.part, q.at, false);
    if seen.class != class::OPEN_SIGN {
        return Ok(q);
    }
    let p = draft.token(q, seen.item.end, OperatorToken::SUBSTRING_OPEN.0);
    subscripts(text, p, draft)
}

// A comparison with a string.
#[cycle(terms)]
fn comparison(text: &Text, q: Spot, draft: &mut Draft) -> Result<Spot, RefusedAt>
    requires { Asks (env_of text.now) q draft.old }
    ensures { Says (want_string_comparison ∷ []) (env_of text.now) q draft.old draft.new result }
{
    let seen = see(text.part, q.at, false);
    let it = seen.item;
    if !compares(seen.class) {
        return Err(text.refuse(Refusal::NoReading, it.at));
    }
    let p = draft.token(q, it.end, string_operator(seen.own));
    string(text, p, draft)
}

// A string compared with a string.
#[cycle(terms)]
fn compared(text: &Text, q: Spot, draft: &mut Draft) -> Result<Spot, RefusedAt>
    requires { Asks (env_of text.now) q draft.old }
    ensures { Says (want_string ∷ want_string_comparison ∷ []) (env_of text.now) q draft.old draft.new result }
{
    let p = string(text, q, draft)?;
    comparison(text, p, draft)
}

// A string: quoted, a variable or a part of one, or what a function gives.
#[cycle(terms)]
fn string(text: &Text, q: Spot, draft: &mut Draft) -> Result<Spot, RefusedAt>
    requires { Asks (env_of text.now) q draft.old }
    ensures { Says (want_string ∷ []) (env_of text.now) q draft.old draft.new result }
{
    let seen = see(text.part, q.at, false);
    let it = seen.item;
    match seen.class {
        class::QUOTED => Ok(draft.quoted(*text, it, q)),
        class::STRING_VARIABLE => {
            let p = draft.variable(*text, it, q);
            substring(text, p, draft)
        }
        class::STRING_FUNCTION => {
            let p = draft.token(q, it.end, seen.own);
            argument(text, p, draft)
        }
        _ => Err(text.refuse(Refusal::NoReading, it.at)),
    }
}

// What a term has after its prefixes, of which the first item was seen: an operand or two strings compared.
#[cycle(terms)]
fn operand(text: &Text, seen: Seen, q: Spot, draft: &mut Draft) -> Result<Spot, RefusedAt>
    requires { (Asks (env_of text.now) q draft.old) × (Shows text.now.part.now q.at false seen) × (seen.class ≡ plus_minus → ⊥) × (seen.class ≡ not_word → ⊥) }
    ensures { Says (want_operand ∷ []) (env_of text.now) q draft.old draft.new result }
{
    let it = seen.item;
    match seen.class {
        class::NUMBER => draft.constant(*text, it, q),
        class::NUMERIC_VARIABLE => Ok(draft.variable(*text, it, q)),
        class::ARRAY => {
            let p = draft.variable(*text, it, q);
            element(text, p, draft)
        }
        class::OPEN_SIGN => {
            let p = draft.token(q, it.end, seen.own);
            enclosed(text, p, draft)
        }
        class::FUNCTION_OF_STRING => {
            let p = draft.token(q, it.end, seen.own);
            string_argument(text, p, draft)
        }
        class::FUNCTION_OF_NUMBER => {
            let p = draft.token(q, it.end, seen.own);
            argument(text, p, draft)
        }
        class::QUOTED => compared(text, q, draft),
        class::STRING_VARIABLE => compared(text, q, draft),
        class::STRING_FUNCTION => compared(text, q, draft),
        _ => Err(text.refuse(Refusal::NoReading, it.at)),
    }
}

// A term, as `term` says it. The readers of the cycle pass the text on by a reference, since a copy for each call would make their frames larger.
#[cycle(terms)]
fn term_at(text: &Text, q: Spot, draft: &mut Draft) -> Result<Spot, RefusedAt>
    requires { Asks (env_of text.now) q draft.old }
    ensures { Says (want_operand ∷ []) (env_of text.now) q draft.old draft.new result }
{
    let mut p = q;
    loop {
        let seen = see(text.part, p.at, false);
        let end = seen.item.end;
        match seen.class {
            class::PLUS_MINUS => p = draft.token(p, end, prefix_operator(seen.own)),
            class::NOT_WORD => p = draft.token(p, end, seen.own),
            _ => return operand(text, seen, p, draft),
        }
    }
}

// A term: its prefixes, and then an operand or two strings compared.
pub fn term(text: Text, q: Spot, draft: &mut Draft) -> Result<Spot, RefusedAt>
    requires { Asks (env_of text) q draft.old }
    ensures { Says (want_operand ∷ []) (env_of text.entry) q draft.old draft.new result }
{
    term_at(&text, q, draft)
}
