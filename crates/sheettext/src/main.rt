// Writes the stored sheet of a typed one, or "REFUSED" and the number. Standard input is the text; 65,536 bytes are held, and a longer text
// is "REFUSED 0".
#![tactic(auto)]

use printed::sheet::{HELD, sheet_output};
use std::io;
use streams::read_full;

fn main(rt: HostRuntime) -> io::Result<()> {
    let mut input = [0u8; HELD];
    let got = read_full(&mut rt.stdin(), &mut input)?;
    let output = sheet_output(&input[..got]);
    rt.write_all(output.as_slice())
}
