// Words and signs by tables of their spellings, one for each class of first bytes.
ghost use Rattle.std.specs.Prelude.{false, ◌≡◌, ◌<◌, length, get_or};
ghost use Rattle.grammar.specs.Class.{class_of};
ghost use Rattle.classes.specs.Mark.{mark_of};
ghost use Rattle.grammar.specs.Token.{is_blank, is_digit, spellings};
ghost use Rattle.lexer.specs.Rows.{lent, row_with, first_row, Found};
ghost use Rattle.lexer.specs.Lexed.{Next};

use crate::{Lexed, Token};
use classes::Class;

// A word or sign by its first byte, by which most are passed over, and the bytes after it; and its token.
#[derive(Clone, Copy, Debug)]
pub struct Spelling(pub u8, pub &'static [u8], pub Token);

// What begins with a letter. A longer word or sign stands before those that it begins with.
static WORDS: [Spelling; 35] = [
    Spelling(b'a', b"ssume", Token::Plain(1)),
    Spelling(b'r', b"equire", Token::Plain(2)),
    Spelling(b'p', b"ref", Token::Plain(3)),
    Spelling(b'i', b"nit", Token::Plain(4)),
    Spelling(b'a', b"nti", Token::Plain(5)),
    Spelling(b'i', b"mplies", Token::Plain(6)),
    Spelling(b'f', b"ollows", Token::Plain(7)),
    Spelling(b't', b"riggers", Token::Plain(8)),
    Spelling(b't', b"rue", Token::Plain(9)),
    Spelling(b'f', b"alse", Token::Plain(10)),
    Spelling(b's', b"len", Token::Plain(11)),
    Spelling(b's', b"count", Token::Plain(12)),
    Spelling(b's', b"dur", Token::Plain(13)),
    Spelling(b'd', b"raw", Token::Plain(14)),
    Spelling(b'a', b"t", Token::Plain(15)),
    Spelling(b'g', b"ap", Token::Plain(16)),
    Spelling(b's', b"10", Token::Signal(10)),
    Spelling(b's', b"11", Token::Signal(11)),
    Spelling(b's', b"12", Token::Signal(12)),
    Spelling(b's', b"13", Token::Signal(13)),
    Spelling(b's', b"14", Token::Signal(14)),
    Spelling(b's', b"15", Token::Signal(15)),
    Spelling(b's', b"0", Token::Signal(0)),
    Spelling(b's', b"1", Token::Signal(1)),
    Spelling(b's', b"2", Token::Signal(2)),
    Spelling(b's', b"3", Token::Signal(3)),
    Spelling(b's', b"4", Token::Signal(4)),
    Spelling(b's', b"5", Token::Signal(5)),
    Spelling(b's', b"6", Token::Signal(6)),
    Spelling(b's', b"7", Token::Signal(7)),
    Spelling(b's', b"8", Token::Signal(8)),
    Spelling(b's', b"9", Token::Signal(9)),
    Spelling(b'u', b"0", Token::Name(0)),
    Spelling(b'u', b"1", Token::Name(1)),
    Spelling(b'u', b"2", Token::Name(2)),
];

// What begins with a bracket.
static BRACKETS: [Spelling; 12] = [
    Spelling(b'[', b"[", Token::Plain(26)),
    Spelling(b']', b"]", Token::Plain(27)),
    Spelling(b'{', b"{", Token::Plain(28)),
    Spelling(b'}', b"}", Token::Plain(29)),
    Spelling(b'<', b"=", Token::Plain(18)),
    Spelling(b'>', b"=", Token::Plain(20)),
    Spelling(b'<', b"", Token::Plain(17)),
    Spelling(b'>', b"", Token::Plain(21)),
    Spelling(b'(', b"", Token::Plain(22)),
    Spelling(b')', b"", Token::Plain(23)),
    Spelling(b'[', b"", Token::Plain(24)),
    Spelling(b']', b"", Token::Plain(25)),
];

static JOINERS: [Spelling; 8] = [
    Spelling(b'=', b"", Token::Plain(19)),
    Spelling(b'|', b"", Token::Plain(30)),
    Spelling(b'&', b"", Token::Plain(31)),
    Spelling(b'^', b"", Token::Plain(32)),
    Spelling(b'!', b"", Token::Plain(33)),
    Spelling(b'*', b"", Token::Plain(34)),
    Spelling(b':', b"", Token::Plain(35)),
    Spelling(b',', b"", Token::Plain(36)),
];

static LINE_ENDS: [Spelling; 1] = [Spelling(b'\n', b"", Token::Plain(0))];

// The first row with this first byte whose other bytes `rest` begins with.
#[tactic(auto, unfolding(crate::specs::Rows::row_with))]
fn row_with(rows: &'static [Spelling], first: u8, rest: &[u8]) -> Option<&'static Spelling>
    ensures { lent result ≡ row_with rows.now first rest.now }
{
    rows.iter()
        .find(|row| row.0 == first && rest.starts_with(row.1))
}

// The first row whose word or sign the text begins with.
fn find(rows: &'static [Spelling], text: &[u8]) -> Option<&'static Spelling>
    ensures { lent result ≡ first_row rows.now text.now }
{
    let (first, rest) = text.split_first()?;
    row_with(rows, *first, rest)
}

// The word or sign that the text begins with, whose first byte has this class: the class decides which rows are looked through.
fn word_or_sign(text: &[u8], class: Class) -> Option<&'static Spelling>
    requires { (0 < length text.now) × (mark_of class ≡ class_of (get_or text.now 0 0)) }
    ensures { Found spellings text.now (lent result) }
{
    match class {
        Class::Letter => find(&WORDS, text),
        Class::Bracket => find(&BRACKETS, text),
        Class::Joiner => find(&JOINERS, text),
        Class::LineEnd => find(&LINE_ENDS, text),
        Class::Digit | Class::Blank | Class::Other => None,
    }
}

// The token that starts with the byte at `at`, of this class, which is neither a blank nor a digit.
pub fn spelling_at(text: &[u8], at: usize, class: Class) -> Lexed
    requires { (at < length text.now) × (mark_of class ≡ class_of (get_or text.now at 0)) × (is_blank (get_or text.now at 0) ≡ false) × (is_digit (get_or text.now at 0) ≡ false) }
    ensures { Next text.now at result }
{
    match word_or_sign(&text[at..], class) {
        Some(Spelling(_, rest, token)) => Lexed {
            token: *token,
            at: at + 1 + rest.len(),
        },
        None => Lexed {
            token: Token::Outside,
            at: at + 1,
        },
    }
}
