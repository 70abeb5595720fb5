// The three arrays of rows for one placement, gathered from the tables.
ghost use Rattle.std.specs.Prelude.{◌≡◌, cond, ◌+◌, ◌*◌, ◌<◌, ◌≤◌, length};
ghost use Rattle.semantics.specs.Proposition.{bit};
ghost use Rattle.tables.specs.Table.{standing};
ghost use Rattle.intervals.specs.Gather.{cut_to, first_name, last_name, gathered, Adds, Ends};

use rows::cut::shortest;
use rows::mask::below;
use stored::masks::has_name;

// The cycle of name u if the mask has it.
fn cycle_of(names: usize, u: usize, cycles: [usize; 3], none: usize) -> usize
    requires { u < 3 }
    ensures { result ≡ cond (bit names u) (standing cycles u) none }
{
    if has_name(names, u) { cycles[u] } else { none }
}

// The first cycle of the names in the mask, 63 if there is none.
fn first_name(names: usize, cycles: [usize; 3]) -> usize
    ensures { (result ≡ first_name (bit names) (standing cycles)) × (result < 64) }
{
    let a = cycle_of(names, 0, cycles, 63);
    let b = cycle_of(names, 1, cycles, 63);
    let c = cycle_of(names, 2, cycles, 63);
    a.min(b).min(c.min(63))
}

// The last cycle of the names in the mask, 0 if there is none. One function for both would be told the number and the method, and be
// no shorter.
fn last_name(names: usize, cycles: [usize; 3]) -> usize
    ensures { result ≡ last_name (bit names) (standing cycles) }
{
    let a = cycle_of(names, 0, cycles, 0);
    let b = cycle_of(names, 1, cycles, 0);
    let c = cycle_of(names, 2, cycles, 0);
    a.max(b).max(c)
}

fn cut_row(short: bool, row: u64) -> u64
    ensures { result ≡ cut_to short row }
{
    if short { shortest(row) } else { row }
}

// Adds to each row of the trace's cycles the intervals of a node, or the shortest of each row alone, that hold the cycles of the
// names in the mask: they start at the first of these or before, and end at the last or after. Gives the cycles where they end.
pub fn add(
    words: &[u64],
    root: usize,
    names: usize,
    short: bool,
    cycles: [usize; 3],
    n: usize,
    out: &mut [u64],
) -> u64
    requires { (64 * root + 64 ≤ length words.now) × (n ≤ 64) × (length out.old ≡ 64) }
    ensures rows_long { length out.new ≡ 64 }
    ensures adds { Adds n out.old out.new (gathered words.now root names short (standing cycles)) }
    ensures ends { Ends n (gathered words.now root names short (standing cycles)) result }
{
    let high = (first_name(names, cycles) + 1).min(n);
    let ends = !below(last_name(names, cycles));
    let mut all: u64 = 0;
    for b in 0..high {
        let row = cut_row(short, words[64 * root + b]) & ends;
        out[b] |= row;
        all |= row;
    }
    all
}
