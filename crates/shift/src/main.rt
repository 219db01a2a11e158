// The program: reads a script from standard input, and prints what came of each record.
#![tactic(auto)]

use runner::{LIMIT, report};
use std::io;
use std::io::Read;

fn main(rt: HostRuntime) -> io::Result<()> {
    let mut bytes = Vec::new(rt.alloc());
    rt.stdin().take(LIMIT as u64).read_to_end(&mut bytes)?;
    rt.print(report(rt.alloc(), bytes.as_slice())?)
}
