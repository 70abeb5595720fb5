// Prints the verdict of a sheet on a trace, or the number of the refusal. Standard input is the sheet, then the trace; 1,024 bytes are read.
#![tactic(auto)]

use printed::line::check_line;
use std::io;
use streams::read_full;

fn main(rt: HostRuntime) -> io::Result<()> {
    let mut input = [0u8; 1024];
    let got = read_full(&mut rt.stdin(), &mut input)?;
    let line = check_line(&input[..got]);
    rt.write_all(line.as_slice())
}
