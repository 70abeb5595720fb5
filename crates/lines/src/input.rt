// A program's input: fields, then a sheet and a trace. Bytes that the input lacks count as zero.
ghost use Rattle.std.specs.Prelude.{◌≡◌, ◌+◌, ◌<◌, ◌≤◌, length, get_or};
ghost use Rattle.stored.specs.Bytes.{word};
ghost use Rattle.stored.specs.Layout.{least_words};
ghost use Rattle.lines.specs.Input.{split_at};

use stored::layout::LEAST_WORDS;

pub fn byte_at(input: &[u8], k: usize) -> usize
    ensures { (result ≡ get_or input.now k 0) × (result < 256) }
{
    input.get(k).map_or(0, |byte| usize::from(*byte))
}

pub fn word_at(input: &[u8], k: usize) -> usize
    requires { k < 65536 }
    ensures { (result ≡ word input.now k) × (result < 65536) }
{
    byte_at(input, k) * 256 + byte_at(input, k + 1)
}

// Where the sheet ends and the trace starts.
pub fn split(input: &[u8]) -> usize
    ensures { (result ≡ split_at input.now) × (result ≤ length input.now) }
{
    let end = word_at(input, 0) + 2;
    end.min(input.len())
}

// The words that a program lends.
pub fn lent_words() -> [u64; LEAST_WORDS]
    ensures { least_words ≡ length result }
{
    [0; LEAST_WORDS]
}
