// Writes the formula of a sheet, or "REFUSED" and the number. Standard input is the sheet; 1,024 bytes are read.
#![tactic(auto)]

use printed::formula::formula_output;
use std::io;
use streams::read_full;

fn main(rt: HostRuntime) -> io::Result<()> {
    let mut input = [0u8; 1024];
    let got = read_full(&mut rt.stdin(), &mut input)?;
    let output = formula_output(&input[..got]);
    rt.write_all(output.as_slice())
}
