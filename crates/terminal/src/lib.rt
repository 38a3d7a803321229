// Standard input and output of the programs.
#![tactic(auto)]

use anyhow::anyhow;
use day_run::Printout;
use std::alloc::AllocError;
use std::io;
use std::io::{Read, Write};

// As much of the input as is looked at. The longest day file has 52,006 bytes, so a longer input is refused by its length.
const MOST_BYTES: u64 = 65_536;

// The first bytes of standard input.
pub fn input(rt: &HostRuntime) -> io::Result<Vec<u8>> {
    let mut bytes = Vec::new(rt.alloc());
    let mut stdin = rt.stdin().take(MOST_BYTES);
    stdin.read_to_end(&mut bytes)?;
    Ok(bytes)
}

// Prints what there is to print. A file that is refused, and want of memory, end the program with an error.
pub fn output(rt: &HostRuntime, printout: Result<Printout, AllocError>) -> anyhow::Result<()> {
    let printout = printout.map_err(|_| anyhow!("there is not enough memory"))?;
    rt.stdout().write_all(printout.as_bytes())?;
    match printout {
        Printout::Page(_) => Ok(()),
        Printout::Refused(_) => Err(anyhow!("the file is refused")),
    }
}
