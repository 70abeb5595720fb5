// What the formula program writes.
ghost use Rattle.printed.specs.Formula.{OutputOf};

use lines::answer;
use lines::output::{Output, zeros};
use stored::layout::LEAST_OUTPUT;
use translator::translate;

// What the formula program writes for its input, all of which is the sheet.
pub fn formula_output(sheet: &[u8]) -> Output<LEAST_OUTPUT>
    ensures { OutputOf sheet.now result }
{
    let mut bytes = zeros();
    let answer = translate(sheet, &mut bytes);
    answer::answered(bytes, answer)
}
