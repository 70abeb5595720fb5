// The nodes that are written once, at fixed numbers: three lengths, then for each name u the proposition that it is marked, node
// 3 + 2u, and that it is marked once on the interval, node 4 + 2u.
ghost use Rattle.std.specs.Prelude.{◌≡◌, ◌+◌, ◌*◌, ◌<◌};
ghost use Rattle.stored.specs.Sheet.{header_of};
ghost use Rattle.plans.specs.Emission.{count, Good, Step, Shared, Ready};

use plans::node::{Op, put};
use rows::count::Comparison;

// Length 0 or more: any interval.
pub const ANYWHERE: usize = 0;

// Length above 0.
pub const EXTENDED: usize = 1;

// Length below 0: no interval.
pub const NOTHING: usize = 2;

fn put_lengths(out: &mut [u8])
    requires { (Good out.old) × (count out.old ≡ 0) }
    ensures { (Shared out.new 0) × (count out.new ≡ 3) × (Step out.old out.new 3) }
{
    put(out, Op::Length(Comparison::AtLeast, 0));
    put(out, Op::Length(Comparison::Above, 0));
    put(out, Op::Length(Comparison::Below, 0));
}

// Name u, and that it has one mark.
fn put_name(out: &mut [u8], u: usize)
    requires { (Shared out.old u) × (count out.old ≡ 3 + 2 * u) × (u < (header_of out.old).names) }
    ensures { (Shared out.new (u + 1)) × (count out.new ≡ 3 + 2 * (u + 1)) × (Step out.old out.new 2) }
{
    let marked = put(out, Op::Name(u));
    put(out, Op::Count(Comparison::Equal, marked, 1));
}

pub fn put_shared(out: &mut [u8], m: usize)
    requires { (Good out.old) × (count out.old ≡ 0) × (m ≡ (header_of out.old).names) }
    ensures { (Ready out.new) × (Step out.old out.new (3 + 2 * m)) }
{
    put_lengths(out);
    for u in 0..m {
        put_name(out, u);
    }
}
