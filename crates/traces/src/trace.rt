// A trace: its frame, its cycles, and the order of its refusals.
ghost use Rattle.std.specs.Prelude.{◌≡◌, ◌+◌, ◌*◌, ◌≤◌, ◌<◌, ◌^◌, ltb, length};
ghost use Rattle.stored.specs.Bytes.{every_below};
ghost use Rattle.traces.specs.Columns.{signal_column, columns_of};
ghost use Rattle.stored.specs.Layout.{cycles_start, cycle_size, most_signals, most_cycles};
ghost use Rattle.traces.specs.Trace.{cycle_at, cycle_right, trace_answer};

use rows::mask::{has, only};
use std::array;
use stored::refusal::Refusal;
use stored::{bytes, layout};

// No bit from s up is set.
pub fn is_below(w: usize, s: usize) -> bool
    requires { w < 65536 }
    ensures { result ≡ ltb w (2 ^ s) }
{
    if s < layout::MOST_SIGNALS {
        let end = 1usize << s;
        w < end
    } else {
        true
    }
}

// The word of cycle i.
pub fn cycle_at(trace: &[u8], i: usize) -> usize
    requires { cycle_size * i + (cycles_start + cycle_size) ≤ length trace.now }
    ensures { (result ≡ cycle_at trace.now i) × (result < 65536) }
{
    bytes::word(trace, layout::CYCLE_SIZE * i + layout::CYCLES_START)
}

fn cycles_ok(trace: &[u8], n: usize, s: usize) -> bool
    requires { cycle_size * n + cycles_start ≤ length trace.now }
    ensures { result ≡ every_below n (cycle_right s trace.now) }
{
    (0..n).all(|i| is_below(cycle_at(trace, i), s))
}

// How many cycles a trace beside a sheet of s signals has, or the refusal with the lowest number from
// 10 to 13 that applies to it.
pub fn read_trace(trace: &[u8], s: usize) -> Result<usize, Refusal>
    ensures { result ≡ trace_answer s trace.now }
{
    if !bytes::is_framed(trace, layout::CYCLES_START) {
        return Err(Refusal::TraceNotFramed);
    }
    if bytes::byte(trace, 2) != 1 {
        return Err(Refusal::UnknownTraceVersion);
    }
    if bytes::byte(trace, 3) != s {
        return Err(Refusal::OtherSignals);
    }
    let n = (trace.len() - layout::CYCLES_START) / layout::CYCLE_SIZE;
    if trace.len() != layout::CYCLES_START + layout::CYCLE_SIZE * n {
        return Err(Refusal::InvalidCycles);
    }
    if n < 1 {
        return Err(Refusal::InvalidCycles);
    }
    if layout::MOST_CYCLES < n {
        return Err(Refusal::InvalidCycles);
    }
    if !cycles_ok(trace, n, s) {
        return Err(Refusal::InvalidCycles);
    }
    Ok(n)
}

// How many columns a set has: sixteen for the signals, then three for the names.
pub const COLUMNS: usize = layout::MOST_SIGNALS + layout::MOST_NAMES;

// The column of name 0.
pub const FIRST_NAME: usize = layout::MOST_SIGNALS;

// The cycles at which signal k is set.
fn signal_column(trace: &[u8], n: usize, k: usize) -> u64
    requires { (k < 64) × (n ≤ most_cycles) × (cycle_size * n + cycles_start ≤ length trace.now) }
    ensures { result ≡ signal_column trace.now n k }
{
    let mut out = 0;
    for t in 0..n {
        let signals = cycle_at(trace, t) as u64;
        if has(signals, k) {
            out |= only(t);
        }
    }
    out
}

// The columns of a trace of s signals and n cycles; no name is marked.
pub fn columns(trace: &[u8], s: usize, n: usize) -> [u64; COLUMNS]
    requires { (s ≤ most_signals) × (n ≤ most_cycles) × (cycle_size * n + cycles_start ≤ length trace.now) }
    ensures { result ≡ columns_of s n trace.now }
{
    array::from_fn(|k| if k < s { signal_column(trace, n, k) } else { 0 })
}
