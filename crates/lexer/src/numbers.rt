// Decimal numbers.
ghost use Rattle.std.specs.Prelude.{true, ◌≡◌, ◌≤◌, ◌<◌, length, get_or};
ghost use Rattle.grammar.specs.Token.{is_digit};
ghost use Rattle.lexer.specs.Lexed.{with_digit, Small, Munched, Next, Means};

use crate::lookup::class_of;
use crate::{Lexed, Token};
use classes::Class;

// The number that digits stand for, none where it is more than 65,535, and the place after them.
#[derive(Clone, Copy, Debug, PartialEq, Eq)]
pub struct Numeral {
    pub value: Option<usize>,
    pub at: usize,
}

// The number with one more digit.
fn with_digit(value: Option<usize>, b: u8) -> Option<usize>
    requires { Small value × (is_digit b ≡ true) }
    ensures { result ≡ with_digit value b }
{
    let more = value? * 10 + usize::from(b - b'0');
    (more <= 65535).then_some(more)
}

// The number at `at`.
fn munch(text: &[u8], at: usize) -> Numeral
    requires { at ≤ length text.now }
    ensures { Munched text.now at result }
{
    let mut value = Some(0);
    for i in at..text.len() {
        let b = text[i];
        if class_of(b) != Class::Digit {
            return Numeral { value, at: i };
        }
        value = with_digit(value, b);
    }
    Numeral {
        value,
        at: text.len(),
    }
}

// The token that starts with the digit at `at`.
pub fn number_at(text: &[u8], at: usize) -> Lexed
    requires { (at < length text.now) × (is_digit (get_or text.now at 0) ≡ true) }
    ensures { Next text.now at result }
{
    let read = munch(text, at);
    let token = match read.value {
        Some(n) => Token::Number(n),
        None => Token::Outside,
    };
    Lexed { token, at: read.at }
}
