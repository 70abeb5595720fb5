// How deep the round brackets of a text go.
ghost use Rattle.std.specs.Prelude.{◌≡◌, ◌≤◌};
ghost use Rattle.grammar.specs.Brackets.{open_after, too_deep};

use crate::lookup::class_of;
use classes::Class;

// How many brackets are open after byte b.
fn open_after(depth: usize, b: u8) -> usize
    requires { depth ≤ 32 }
    ensures { result ≡ open_after depth b }
{
    if class_of(b) != Class::Bracket {
        return depth;
    }
    match b {
        b'(' => depth + 1,
        b')' => depth.saturating_sub(1),
        _ => depth,
    }
}

// More than 32 are open at some place.
pub fn too_deep(text: &[u8]) -> bool
    ensures { result ≡ too_deep text.now }
{
    let mut depth = 0;
    for b in text {
        depth = open_after(depth, *b);
        if 32 < depth {
            return true;
        }
    }
    false
}
