// What a program writes.
ghost use Rattle.std.specs.Prelude.{◌≡◌, ◌≤◌, take, replicate};

// Bytes, of which the first `length` are written.
#[derive(Drop)]
pub struct Output<const N: usize> {
    pub bytes: [u8; N],
    pub length: usize,
    pub ghost inside: { length ≤ N },
}

impl<const N: usize> Output<N> {
    // The bytes that are written.
    pub fn as_slice(&self) -> &[u8]
        ensures { result.now ≡ take self.now.length self.now.bytes }
    {
        &self.bytes[..self.length]
    }
}

// An array of zeros, for a text to be put in.
pub fn zeros<const N: usize>() -> [u8; N]
    ensures { result ≡ replicate N 0 }
{
    [0; N]
}
