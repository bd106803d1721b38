// Reads a text of the language from standard input, and tells on one line how many symbols it has, or its first fault.
#![tactic(auto)]

use report::report;
use std::io::Read;

// One byte more than a text may have shows that it is too long; the rest need not be read.
const ENOUGH: u64 = 16385;

fn main(rt: HostRuntime) -> anyhow::Result<()> {
    let mut text = Vec::new(rt.alloc());
    let _ = rt.stdin().take(ENOUGH).read_to_end(&mut text)?;
    let line = report(rt.alloc(), &text)?;
    println!(rt; "{line}")?;
    Ok(())
}
