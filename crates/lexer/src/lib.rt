// The words, numbers and signs of a typed text, one after the other, and how deep its round brackets go.
#![tactic(auto)]

pub mod brackets;
pub mod lookup;
pub mod numbers;
pub mod spellings;
pub mod table;

ghost use Rattle.std.specs.Prelude.{◌≡◌};
ghost use Rattle.grammar.specs.Spelled.{ends_line};
ghost use Rattle.lexer.specs.Lexed.{Skipped, Next};

use crate::lookup::class_of;
use classes::Class;

// A word, sign or line end by its number, which is the grammar's (`grammar/specs/Token.antt`), whose reader's promises name words and signs
// so; s0 to s15; u0 to u2; a number up to 65,535; anything else; the end of the text.
#[derive(Clone, Copy, Debug, PartialEq, Eq)]
pub enum Token {
    Plain(usize),
    Signal(usize),
    Name(usize),
    Number(usize),
    Outside,
    End,
}

// A token, and the place after it.
#[derive(Clone, Copy, Debug, PartialEq, Eq)]
pub struct Lexed {
    pub token: Token,
    pub at: usize,
}

// The first place from `at` on that has no blank.
fn skip_blanks(text: &[u8], at: usize) -> usize
    ensures { Skipped text.now at result }
{
    for i in at..text.len() {
        if class_of(text[i]) != Class::Blank {
            return i;
        }
    }
    at.max(text.len())
}

// The token at or after `at`.
pub fn next(text: &[u8], at: usize) -> Lexed
    ensures { Next text.now at result }
{
    let start = skip_blanks(text, at);
    if text.len() <= start {
        return Lexed {
            token: Token::End,
            at: text.len(),
        };
    }
    let class = class_of(text[start]);
    match class {
        Class::Digit => numbers::number_at(text, start),
        _ => spellings::spelling_at(text, start, class),
    }
}

// Whether the last byte is a line end.
pub fn ends_line(text: &[u8]) -> bool
    ensures { result ≡ ends_line text.now }
{
    match text.last() {
        Some(b) => class_of(*b) == Class::LineEnd,
        None => false,
    }
}
