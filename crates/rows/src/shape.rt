// Rows of the formulas over one column: bit t of `column` says whether the proposition, the signal or the name is true at cycle t.
ghost use Rattle.std.specs.Prelude.{◌≡◌, not, ◌&&◌, ◌+◌, ◌<◌, ◌≤◌, leb, eqb};
ghost use Rattle.semantics.specs.Cycles.{every_from, every_in};
ghost use Rattle.semantics.specs.Proposition.{bit};
ghost use Rattle.semantics.specs.Formula.{drawn_on};
ghost use Rattle.rows.specs.Row.{word, row};
ghost use Rattle.rows.specs.Symbols.{symbol_of, symbol_numbered};

use crate::mask::{ALL, before_first, below, cycles_from, has, only, up_to_first};

// What a waveform is drawn with; document 01's numbers 2 and 3 are both `Either`.
#[derive(Clone, Copy)]
pub enum Symbol {
    Low,
    High,
    Either,
    LowStretch,
    HighStretch,
    EitherStretch,
    Steady,
}

// Any number has a symbol, as any has a comparison: rule 6 keeps the numbers of a sheet below 8. There is no way back from a symbol, since
// `Either` has two numbers.
impl From<usize> for Symbol {
    ghost from_gives = { λ q symbol. symbol_of symbol ≡ symbol_numbered q };

    fn from(q: usize) -> Symbol {
        match q {
            1 => Symbol::High,
            2 | 3 => Symbol::Either,
            4 => Symbol::LowStretch,
            5 => Symbol::HighStretch,
            6 => Symbol::EitherStretch,
            7 => Symbol::Steady,
            _ => Symbol::Low,
        }
    }
}

// The cycles from b on that a column lacks.
fn lacking(column: u64, b: usize) -> u64
    ensures { result ≡ word 64 (λ t. leb b t && not (bit column t)) }
{
    !column & !below(b)
}

// ⟨p⟩: p at b.
pub fn point(column: u64, b: usize, n: usize) -> u64
    requires { (b < n) × (n ≤ 64) }
    ensures { result ≡ row n (λ b e. bit column b) b }
{
    if has(column, b) { cycles_from(b, n) } else { 0 }
}

// [p]: p at each cycle from b up to but without e.
pub fn stretch(column: u64, b: usize, n: usize) -> u64
    requires { (b < n) × (n ≤ 64) }
    ensures { result ≡ row n (λ b e. every_from b e (bit column)) b }
{
    let ends = up_to_first(lacking(column, b));
    cycles_from(b, n) & ends
}

// [[p]]: e too. [p] differs in the mask alone, whose function has another promise: one body for both would be given it and its law.
pub fn whole(column: u64, b: usize, n: usize) -> u64
    requires { (b < n) × (n ≤ 64) }
    ensures { result ≡ row n (λ b e. every_in b e (bit column)) b }
{
    let ends = before_first(lacking(column, b));
    cycles_from(b, n) & ends
}

// {{p}}: e = b + 1 and p at b.
pub fn unit(column: u64, b: usize, n: usize) -> u64
    requires { (b < n) × (n ≤ 64) }
    ensures { result ≡ row n (λ b e. eqb e (b + 1) && bit column b) b }
{
    let here = column & only(b);
    cycles_from(b, n) & (here << 1)
}

// A mark of a name: b = e, and the name is marked there.
pub fn marked(column: u64, b: usize, n: usize) -> u64
    requires { (b < n) × (n ≤ 64) }
    ensures { result ≡ row n (λ b e. eqb b e && bit column b) b }
{
    column & only(b)
}

// A symbol on a signal.
pub fn drawn(symbol: Symbol, column: u64, b: usize, n: usize) -> u64
    requires { (b < n) × (n ≤ 64) }
    ensures { result ≡ row n (λ b e. drawn_on (symbol_of symbol) (bit column) b e) b }
{
    match symbol {
        Symbol::Low => unit(!column, b, n),
        Symbol::High => unit(column, b, n),
        Symbol::Either => unit(ALL, b, n),
        Symbol::LowStretch => stretch(!column, b, n),
        Symbol::HighStretch => stretch(column, b, n),
        Symbol::EitherStretch => cycles_from(b, n),
        Symbol::Steady => stretch(!column, b, n) | stretch(column, b, n),
    }
}
