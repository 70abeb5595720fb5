// Ξ on a row.
ghost use Rattle.std.specs.Prelude.{◌≡◌};
ghost use Rattle.rows.specs.Row.{shortest_of};

use crate::mask::up_to_first;

// The shortest interval of a row alone.
pub fn shortest(row: u64) -> u64
    ensures { result ≡ shortest_of row }
{
    row & up_to_first(row)
}
