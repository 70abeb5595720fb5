// What the lexer asks of a byte: its class, by the table.
ghost use Rattle.std.specs.Prelude.{◌≡◌};
ghost use Rattle.grammar.specs.Class.{class_of, class_table};
ghost use Rattle.classes.specs.Mark.{mark_of};

use crate::table::CLASSES;
use classes::Class;

// The whole table, in its one place: an array would be laid out anew at each call.
pub fn class_table() -> &'static [u8; 256]
    ensures { result.now ≡ class_table }
{
    &CLASSES
}

// The class of a byte.
pub fn class_of(b: u8) -> Class
    ensures { mark_of result ≡ class_of b }
{
    class_table()[b as usize].into()
}
