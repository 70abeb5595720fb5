// Prints the interval table of a node. Standard input is the node in two bytes, a byte for each of three cycles, then a sheet and a trace.
#![tactic(auto)]

use printed::page::table_page;
use std::io;
use streams::read_full;

fn main(rt: HostRuntime) -> io::Result<()> {
    let mut input = [0u8; 1029];
    let got = read_full(&mut rt.stdin(), &mut input)?;
    let page = table_page(&input[..got]);
    rt.write_all(page.as_slice())
}
