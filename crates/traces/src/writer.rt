// Writes the stored trace of cycles into lent bytes.
ghost use Rattle.std.specs.Prelude.{◌≡◌, ◌≤◌, ◌<◌, length};
ghost use Rattle.std.proofs.lemmas.List.Edits.{sets};
ghost use Rattle.stored.specs.Layout.{cycles_start, most_cycles};
ghost use Rattle.traces.specs.Written.{cycle_bytes, trace_end, trace_bytes};

use stored::layout::{CYCLE_SIZE, CYCLES_START};
use stored::writer::{high, low};

// Where a trace of n cycles ends.
pub fn trace_end(n: usize) -> usize
    requires { n ≤ most_cycles }
    ensures { result ≡ trace_end n }
{
    CYCLES_START + CYCLE_SIZE * n
}

// The cycles, two bytes each, after the header.
fn put_cycles(out: &mut [u8], cycles: &[u16])
    requires { (length cycles.now ≤ most_cycles) × (trace_end (length cycles.now) ≤ length out.old) }
    ensures { out.new ≡ sets out.old cycles_start (cycle_bytes cycles.now) }
{
    for (i, cycle) in cycles.iter().enumerate() {
        let at = trace_end(i);
        let cycle = usize::from(*cycle);
        out[at] = high(cycle);
        out[at + 1] = low(cycle);
    }
}

// The stored trace of cycles of s signals, from the first of the lent bytes on.
pub fn put_trace(out: &mut [u8], s: usize, cycles: &[u16])
    requires { (s < 256) × (length cycles.now ≤ most_cycles) × (trace_end (length cycles.now) ≤ length out.old) }
    ensures { out.new ≡ sets out.old 0 (trace_bytes s cycles.now) }
{
    let rest = trace_end(cycles.len()) - 2;
    out[0] = high(rest);
    out[1] = low(rest);
    out[2] = 1;
    out[3] = s as u8;
    put_cycles(out, cycles);
}
