// Single tokens: the one that is wanted, with the place after it, or none where another comes.
ghost use Rattle.std.specs.Prelude.{◌≤◌, IfSome};
ghost use Rattle.grammar.specs.Token.{signalled, named, number};
ghost use Rattle.grammar.specs.Reader.{a_number, a_name, a_signal, a_comparison};
ghost use Rattle.propositions.specs.Lexemes.{SignRead, Opened, WordRead};
ghost use Rattle.propositions.specs.Reads.{Leafs, comparison_token};

use crate::words::{ABOVE_SIGN, BELOW_SIGN, OPEN_ROUND};
use lexer::{Token, next};

// The number that a token carries, and the place after it.
#[derive(Clone, Copy)]
pub struct Leaf {
    pub value: usize,
    pub at: usize,
}

// The place after the word or sign with this number.
pub fn sign(text: &[u8], at: usize, wanted: usize) -> Option<usize>
    ensures { SignRead wanted text.now at result }
{
    let read = next(text, at);
    if read.token == Token::Plain(wanted) {
        Some(read.at)
    } else {
        None
    }
}

// The place after an opening round bracket, where `depth` more may be opened.
pub fn opened(text: &[u8], at: usize, depth: usize) -> Option<usize>
    ensures { Opened text.now at depth result }
{
    if depth == 0 {
        return None;
    }
    sign(text, at, OPEN_ROUND)
}

// A number of at most 65,535. `name` and `signal` differ from it in the pattern alone, which cannot be passed: one function of the three
// would take a closure with this same match.
pub fn number(text: &[u8], at: usize) -> Option<Leaf>
    ensures { Leafs number a_number text.now at result }
{
    let read = next(text, at);
    match read.token {
        Token::Number(value) => Some(Leaf { value, at: read.at }),
        _ => None,
    }
}

// A name, u0 to u2.
pub fn name(text: &[u8], at: usize) -> Option<Leaf>
    ensures { Leafs named a_name text.now at result }
{
    let read = next(text, at);
    match read.token {
        Token::Name(value) => Some(Leaf { value, at: read.at }),
        _ => None,
    }
}

// A signal, s0 to s15.
pub fn signal(text: &[u8], at: usize) -> Option<Leaf>
    ensures { Leafs signalled a_signal text.now at result }
{
    let read = next(text, at);
    match read.token {
        Token::Signal(value) => Some(Leaf { value, at: read.at }),
        _ => None,
    }
}

// One of the words or signs from `low` to `high`, by how far it is from the first of them.
pub fn word(text: &[u8], at: usize, low: usize, high: usize) -> Option<Leaf>
    ensures { WordRead low high text.now at result }
{
    let read = next(text, at);
    let Token::Plain(n) = read.token else {
        return None;
    };
    if low <= n && n <= high {
        Some(Leaf {
            value: n - low,
            at: read.at,
        })
    } else {
        None
    }
}

// A comparison, by its number from 0 to 4.
pub fn comparison(text: &[u8], at: usize) -> Option<Leaf>
    ensures leaf_read { Leafs comparison_token a_comparison text.now at result }
    ensures known_value { IfSome result (λ leaf. leaf.value ≤ 4) }
{
    word(text, at, BELOW_SIGN, ABOVE_SIGN)
}
