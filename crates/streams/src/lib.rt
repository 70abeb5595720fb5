// What the programs read: standard input, or any other reader, into bytes that are lent.
#![tactic(auto)]

ghost use Rattle.std.specs.Prelude.{ℕ, ◌≤◌, ◌<◌, length, take, IfOk, IfErr};
ghost use Rattle.std.specs.Io.KnownBytes.{Consumes, IsAtEnd};

use std::io::{Read, Result};

// Reads until the lent bytes are full or the input ends, and gives how many came; it reads no more than that. They stand at the front, and so
// does what came before an error. What stands behind them is the reader's.
pub fn read_full<R: Read>(reader: &mut R, out: &mut [u8]) -> Result<usize>
    ensures within { IfOk result (λ n. n ≤ length out.new) }
    ensures bytes { IfOk result (λ n. Consumes (R.remaining reader.old) (R.remaining reader.new) (take n out.new)) }
    ensures ends { IfOk result (λ n. n < length out.new → IsAtEnd (R.remaining reader.new)) }
    ensures err { IfErr result (λ _. (n : ℕ) × (n ≤ length out.new)
        × Consumes (R.remaining reader.old) (R.remaining reader.new) (take n out.new)) }
{
    // `read_exact` gives no count where the input ends early, and `read_to_end` wants a heap.
    let mut done = 0;
    while done < out.len() {
        let n = reader.read(&mut out[done..])?;
        if n == 0 {
            break;
        }
        done += n;
    }
    Ok(done)
}
