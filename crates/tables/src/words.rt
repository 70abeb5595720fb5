// The lent words: rows read from them, and all of them cleared.
ghost use Rattle.std.specs.Prelude.{◌≡◌, ◌+◌, ◌*◌, ◌≤◌, ◌<◌, length, replicate};
ghost use Rattle.rows.specs.Row.{joined};
ghost use Rattle.tables.specs.Table.{row_at};

use rows::join::join_more;

// Row b of node i.
pub fn row_at(words: &[u64], i: usize, b: usize) -> u64
    requires { 64 * i + b < length words.now }
    ensures { result ≡ row_at words.now i b }
{
    words[64 * i + b]
}

// The rows of node i that start where an interval of `row` ends, joined straight from the words; `kept` is joined from the ends in `had`.
pub fn joined_at(row: u64, had: u64, kept: u64, words: &[u64], i: usize) -> u64
    requires { (64 * i + 64 ≤ length words.now) × (kept ≡ joined had (row_at words.now i)) }
    ensures { result ≡ joined row (row_at words.now i) }
{
    let from = 64 * i;
    let to = from + 64;
    join_more(row, had, kept, &words[from..to])
}

// Every word zero.
pub fn clear(words: &mut [u64])
    ensures { words.new ≡ replicate (length words.old) 0 }
{
    words.fill(0);
}
