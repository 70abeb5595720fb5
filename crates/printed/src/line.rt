// What the check and board programs write: a line with the verdict or with the number of the refusal.
ghost use Rattle.std.specs.Prelude.{◌≡◌, ◌≤◌, ◌<◌, length, replicate, IfOk};
ghost use Rattle.checker.specs.Small.{SmallVerdict};
ghost use Rattle.lines.specs.Lines.{Put, refused_text};
ghost use Rattle.lines.specs.Output.{Holds};
ghost use Rattle.printed.specs.Line.{verdict_text, line_text, most_line, line_for, answer_for};

use checker::check::{Finding, Verdict, check};
use lines::input::{lent_words, split};
use lines::lines::{put_line, put_refused};
use lines::output::{Output, zeros};
use stored::refusal::Refusal;

// The bytes that a line takes at most.
pub const MOST_LINE: usize = 32;

// Puts the line of a verdict and gives its length: the finding's word and numbers, and the advice.
fn put_verdict(out: &mut [u8], verdict: Verdict) -> usize
    requires { (most_line ≤ length out.old) × SmallVerdict verdict }
    ensures { Put out.old out.new 0 result (verdict_text verdict) }
{
    let finding = verdict.finding;
    let advice = verdict.advice;
    match finding {
        Finding::Excused(clause) => {
            let numbers = [clause, advice];
            put_line(out, b"EXCUSED", &numbers)
        }
        Finding::Broken(place) => {
            let numbers = [place.clause, place.i, place.j, place.k, advice];
            put_line(out, b"BROKEN", &numbers)
        }
        Finding::Holds => {
            let numbers = [advice];
            put_line(out, b"HOLDS", &numbers)
        }
    }
}

// Puts the line of an answer and gives its length.
fn put_answer(out: &mut [u8], answer: Result<Verdict, Refusal>) -> usize
    requires { (most_line ≤ length out.old) × IfOk answer SmallVerdict }
    ensures { (Put out.old out.new 0 result (line_text answer)) × (result ≤ most_line) }
{
    match answer {
        Ok(verdict) => put_verdict(out, verdict),
        Err(refusal) => put_refused(out, refusal.number()),
    }
}

// The check's answer to the program's input.
fn answer_for(input: &[u8]) -> Result<Verdict, Refusal>
    ensures { (result ≡ answer_for input.now) × IfOk result SmallVerdict }
{
    let size = input.len();
    let end = split(input);
    let sheet = &input[0..end];
    let trace = &input[end..size];
    let mut words = lent_words();
    check(sheet, trace, &mut words)
}

// The line of a refusal's number.
pub fn refused_line(number: usize) -> Output<MOST_LINE>
    requires { number < 100 }
    ensures { Holds result (refused_text number) }
{
    let mut bytes = zeros();
    let length = put_refused(&mut bytes, number);
    Output { bytes, length }
}

// The line of an answer.
pub fn answer_line(answer: Result<Verdict, Refusal>) -> Output<MOST_LINE>
    requires { IfOk answer SmallVerdict }
    ensures { Holds result (line_text answer) }
{
    let mut bytes = zeros();
    let length = put_answer(&mut bytes, answer);
    Output { bytes, length }
}

// What the check program writes for its input, short ones too.
pub fn check_line(input: &[u8]) -> Output<MOST_LINE>
    ensures { Holds result (line_for input.now) }
{
    answer_line(answer_for(input))
}
