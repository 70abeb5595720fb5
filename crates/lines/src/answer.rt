// What is written for the answer of an operation that writes a sheet: the lent bytes up to a length, or the line of a refusal.
ghost use Rattle.std.specs.Prelude.{◌≡◌, ◌≤◌, ◌<◌, length, IfOk};
ghost use Rattle.std.proofs.lemmas.List.Edits.{sets};
ghost use Rattle.stored.specs.Layout.{least_output};
ghost use Rattle.lines.specs.Lines.{refused_text};
ghost use Rattle.lines.specs.Output.{bytes_for, length_for};

use crate::lines::put_refused;
use crate::output::Output;
use stored::layout::LEAST_OUTPUT;
use stored::refusal::Refusal;

// The line of a refusal's number.
pub fn refused(bytes: [u8; LEAST_OUTPUT], number: usize) -> Output<LEAST_OUTPUT>
    requires { (length bytes ≡ least_output) × (number < 1000) }
    ensures bytes_are { result.bytes ≡ sets bytes 0 (refused_text number) }
    ensures length_is { result.length ≡ length (refused_text number) }
{
    let mut line = bytes;
    let length = put_refused(&mut line, number);
    Output {
        bytes: line,
        length,
    }
}

// What is written for an answer, where these bytes were lent.
pub fn answered(bytes: [u8; LEAST_OUTPUT], answer: Result<usize, Refusal>) -> Output<LEAST_OUTPUT>
    requires { (length bytes ≡ least_output) × IfOk answer (λ size. size ≤ least_output) }
    ensures bytes_are { result.bytes ≡ bytes_for bytes answer }
    ensures length_is { result.length ≡ length_for answer }
{
    let length = match answer {
        Ok(size) => size,
        Err(refusal) => return refused(bytes, refusal.number()),
    };
    Output { bytes, length }
}
