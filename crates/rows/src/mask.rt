// The leaves: words from cycles, and single bits of a word.
ghost use Rattle.std.specs.Prelude.{◌≡◌, not, suc, ◌<◌, ◌≤◌, ltb, leb, eqb};
ghost use Rattle.semantics.specs.Cycles.{some_below};
ghost use Rattle.semantics.specs.Proposition.{bit};
ghost use Rattle.rows.specs.Row.{word, row, always};

// Every cycle.
pub const ALL: u64 = u64::MAX;

// The cycles below k.
pub fn below(k: usize) -> u64
    ensures { result ≡ word 64 (λ e. ltb e k) }
{
    if k < 64 { (1 << k) - 1 } else { ALL }
}

// The cycles up to k.
pub fn up_to(k: usize) -> u64
    ensures { result ≡ word 64 (λ e. leb e k) }
{
    if k < 64 { below(k + 1) } else { ALL }
}

// Cycle b alone.
pub fn only(b: usize) -> u64
    requires { b < 64 }
    ensures { result ≡ word 64 (eqb b) }
{
    1 << b
}

// The cycles from b on, of n.
pub fn cycles_from(b: usize, n: usize) -> u64
    requires { n ≤ 64 }
    ensures { result ≡ row n always b }
{
    below(n) & !below(b)
}

// Whether cycle b belongs to a set.
pub fn has(set: u64, b: usize) -> bool
    requires { b < 64 }
    ensures { result ≡ bit set b }
{
    (set >> b) & 1 == 1
}

// The cycles up to the least of a set: those below which the set has none.
pub fn up_to_first(set: u64) -> u64
    ensures { result ≡ word 64 (λ e. not (some_below e (bit set))) }
{
    up_to(set.trailing_zeros() as usize)
}

// The cycles before the least of a set.
pub fn before_first(set: u64) -> u64
    ensures { result ≡ word 64 (λ e. not (some_below (suc e) (bit set))) }
{
    below(set.trailing_zeros() as usize)
}
