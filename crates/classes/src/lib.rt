// The classes of bytes, and the class of a byte by its definition. The reader of texts asks a table instead, which is printed from here.
#![tactic(auto)]

ghost use Rattle.std.specs.Prelude.{◌≡◌};
ghost use Rattle.grammar.specs.Class.{class_of};
ghost use Rattle.classes.specs.Mark.{mark_of, marked};

#[derive(Clone, Copy, Debug, PartialEq, Eq)]
pub enum Class {
    Letter,
    Digit,
    Blank,
    Bracket,
    Joiner,
    LineEnd,
    Other,
}

// The byte that stands for a class in the table.
impl From<Class> for u8 {
    ghost from_gives = { λ class mark. mark ≡ mark_of class };

    fn from(class: Class) -> u8 {
        match class {
            Class::Letter => b'a',
            Class::Digit => b'0',
            Class::Blank => b'_',
            Class::Bracket => b'(',
            Class::Joiner => b'&',
            Class::LineEnd => b'$',
            Class::Other => b'.',
        }
    }
}

// The class that a byte of the table stands for.
impl From<u8> for Class {
    ghost from_gives = { λ mark class. class ≡ marked mark };

    fn from(mark: u8) -> Class {
        match mark {
            b'a' => Class::Letter,
            b'0' => Class::Digit,
            b'_' => Class::Blank,
            b'(' => Class::Bracket,
            b'&' => Class::Joiner,
            b'$' => Class::LineEnd,
            _ => Class::Other,
        }
    }
}

pub fn class_by_rule(b: u8) -> Class
    ensures { mark_of result ≡ class_of b }
{
    match b {
        b'a'..=b'z' => Class::Letter,
        b'0'..=b'9' => Class::Digit,
        b'\t' | b' ' => Class::Blank,
        b'(' | b')' | b'[' | b']' | b'{' | b'}' | b'<' | b'>' => Class::Bracket,
        b'|' | b'&' | b'^' | b'!' | b'*' | b'=' | b':' | b',' => Class::Joiner,
        b'\n' => Class::LineEnd,
        _ => Class::Other,
    }
}
