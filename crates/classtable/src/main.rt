// Prints the source file of the table of classes, `crates/lexer/src/table.rt`.
#![tactic(auto)]

use std::io;

fn main(rt: HostRuntime) -> io::Result<()> {
    let bytes = classfile::file();
    rt.write_all(&bytes)
}
