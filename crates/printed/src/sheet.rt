// What the text program writes.
ghost use Rattle.printed.specs.Sheet.{SheetOutput};

use lines::answer;
use lines::output::{Output, zeros};
use stored::layout::LEAST_OUTPUT;
use text::read::read_text;

// The most bytes of text that the program holds, and one more, by which it knows a longer one.
pub const MOST_TEXT: usize = 65536;

pub const HELD: usize = MOST_TEXT + 1;

// What the text program writes for its input, all of which is the text. Nothing is read of a text that is too long: no number of the
// papers says so, and the answer is 0.
pub fn sheet_output(text: &[u8]) -> Output<LEAST_OUTPUT>
    ensures { SheetOutput text.now result }
{
    let mut bytes = zeros();
    if MOST_TEXT < text.len() {
        return answer::refused(bytes, 0);
    }
    let answer = read_text(text, &mut bytes);
    answer::answered(bytes, answer)
}
