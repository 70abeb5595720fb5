// Texts in lent bytes: words, numbers and lines.
ghost use Rattle.std.specs.Prelude.{◌+◌, ◌*◌, ◌≤◌, ◌<◌, length};
ghost use Rattle.lines.specs.Lines.{decimal_of, line_with, ThreeDigits, refused_text, Put};

// Puts a word and gives the place after it.
pub fn put_word(out: &mut [u8], at: usize, word: &[u8]) -> usize
    requires { at + length word.now ≤ length out.old }
    ensures { Put out.old out.new at result word.now }
{
    let end = at + word.len();
    out[at..end].copy_from_slice(word);
    end
}

// Puts a number in decimal and gives the place after it.
fn put_decimal(out: &mut [u8], at: usize, number: usize) -> usize
    requires { at + length (decimal_of number) ≤ length out.old }
    ensures { Put out.old out.new at result (decimal_of number) }
{
    if number < 10 {
        out[at] = 48 + number as u8;
        return at + 1;
    }
    let last = put_decimal(out, at, number / 10);
    out[last] = 48 + (number % 10) as u8;
    last + 1
}

// Puts the line of a word and numbers and gives its length.
pub fn put_line(out: &mut [u8], word: &[u8], numbers: &[usize]) -> usize
    requires { (length word.now + 4 * length numbers.now < length out.old) × ThreeDigits numbers.now }
    ensures { Put out.old out.new 0 result (line_with word.now numbers.now) }
{
    let mut at = put_word(out, 0, word);
    for number in numbers {
        out[at] = b' ';
        at = put_decimal(out, at + 1, *number);
    }
    out[at] = b'\n';
    at + 1
}

// Puts the line of a refusal.
pub fn put_refused(out: &mut [u8], number: usize) -> usize
    requires { (24 ≤ length out.old) × (number < 1000) }
    ensures { (Put out.old out.new 0 result (refused_text number)) × (result ≤ 24) }
{
    let numbers = [number];
    put_line(out, b"REFUSED", &numbers)
}
