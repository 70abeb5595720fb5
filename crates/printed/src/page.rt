// What the table program writes.
ghost use Rattle.std.specs.Prelude.{◌≡◌, ◌+◌, ◌<◌, ◌≤◌, length, drop, replicate};
ghost use Rattle.lines.specs.Output.{Holds};
ghost use Rattle.printed.specs.Page.{glyph_of, row_byte, table_text, text_of, answer_to, printed_for};

use checker::table::table;
use lines::input::{byte_at, lent_words, split, word_at};
use lines::lines::put_refused;
use lines::output::{Output, zeros};
use stored::refusal::Refusal;

// The code of a hexadecimal digit.
fn glyph(d: u64) -> u8
    requires { d < 16 }
    ensures { result ≡ glyph_of d }
{
    if d < 10 { 48 + d as u8 } else { 87 + d as u8 }
}

// Byte j of a row's line.
fn row_byte(row: u64, j: usize) -> u8
    requires { j < 17 }
    ensures { result ≡ row_byte row j }
{
    if j == 16 {
        return 10;
    }
    let shift = 4 * (15 - j);
    glyph((row >> shift) % 16)
}

// The lines of a table's rows.
fn row_lines(rows: &[u64; 64]) -> [u8; 1088]
    ensures { result ≡ table_text rows.now }
{
    let mut bytes = zeros();
    for k in 0..1088 {
        bytes[k] = row_byte(rows[k / 17], k % 17);
    }
    bytes
}

// The page of an answer.
fn page_of(answer: Result<[u64; 64], Refusal>) -> Output<1088>
    ensures { Holds result (text_of answer) }
{
    let rows = match answer {
        Ok(rows) => rows,
        Err(refusal) => {
            let mut bytes = zeros();
            let length = put_refused(&mut bytes, refusal.number());
            return Output { bytes, length };
        }
    };
    let bytes = row_lines(&rows);
    Output {
        bytes,
        length: 1088,
    }
}

// Where the sheet starts: after five bytes, or with the input's end.
fn body_start(input: &[u8]) -> usize
    ensures { (drop result input.now ≡ drop 5 input.now) × (result ≤ length input.now) }
{
    if input.len() < 5 {
        return input.len();
    }
    5
}

// The table operation's answer to the program's input.
fn answer_to(input: &[u8]) -> Result<[u64; 64], Refusal>
    ensures { result ≡ answer_to input.now }
{
    let node = word_at(input, 0);
    let p0 = byte_at(input, 2);
    let p1 = byte_at(input, 3);
    let p2 = byte_at(input, 4);
    let from = body_start(input);
    let last = input.len();
    let body = &input[from..last];
    let size = body.len();
    let end = split(body);
    let sheet = &body[0..end];
    let trace = &body[end..size];
    let mut words = lent_words();
    table(sheet, trace, node, p0, p1, p2, &mut words)
}

// What the table program writes for its input, short ones too.
pub fn table_page(input: &[u8]) -> Output<1088>
    ensures { Holds result (printed_for input.now) }
{
    page_of(answer_to(input))
}
