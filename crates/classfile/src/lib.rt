// The source file of the table of classes, as text.
#![tactic(auto)]

ghost use Rattle.std.specs.Prelude.{◌≡◌, ◌+◌, ◌≤◌, length};
ghost use Rattle.grammar.specs.Class.{classes_from};
ghost use Rattle.lines.specs.Lines.{Put};
ghost use Rattle.classfile.specs.File.{line_from, table_file};

use classes::class_by_rule;
use lines::lines::put_word;

// What stands before the lines of classes.
const OPENING: [u8; 233] =
    *b"// The class of each byte, sixteen bytes a line: a stands for letter, 0 digit, _ blank, ( bracket, & joiner, $ line end, . other.\n\
    // Printed by the program `classtable`; not to be changed by hand.\n\
    pub const CLASSES: [u8; 256] = *b\"\\\n";

// How many bytes the file has.
pub const SIZE: usize = 588;

// Puts the classes of sixteen bytes and gives the place after them.
fn put_classes(out: &mut [u8], at: usize, first: usize) -> usize
    requires { (at + 16 ≤ length out.old) × (first + 16 ≤ 256) }
    ensures { Put out.old out.new at result (classes_from 16 first) }
{
    for k in 0..16 {
        out[at + k] = class_by_rule((first + k) as u8).into();
    }
    at + 16
}

// Puts the line of sixteen bytes.
fn put_line(out: &mut [u8], at: usize, first: usize) -> usize
    requires { (at + 22 ≤ length out.old) × (first + 16 ≤ 256) }
    ensures { Put out.old out.new at result (line_from first) }
{
    let indented = put_word(out, at, b"    ");
    let filled = put_classes(out, indented, first);
    put_word(out, filled, b"\\\n")
}

// The whole file.
pub fn file() -> [u8; SIZE]
    ensures { result ≡ table_file }
{
    let mut bytes = [0; SIZE];
    let mut at = put_word(&mut bytes, 0, &OPENING);
    for row in 0..16 {
        at = put_line(&mut bytes, at, 16 * row);
    }
    put_word(&mut bytes, at, b"\";\n");
    bytes
}
