// Judges a profile text: prints its reading, slot by slot, or its fault.
#![tactic(auto)]

use anyhow::Context;
use std::env;
use std::fs::File;
use std::io::{Read, Write};
use text::report::{MOST_TOLD, lint};

// A text of over 20,000 bytes is refused, so no more of a file is read than shows that.
const MOST_READ: u64 = 20001;

fn run(rt: &HostRuntime) -> anyhow::Result<()> {
    let path = env::args(rt)?.nth(1).context("usage: lint PATH")?;
    let mut text = Vec::new(rt.alloc());
    File::open(rt, path.as_str())?
        .take(MOST_READ)
        .read_to_end(&mut text)?;
    // Memory to lend: a report is written where the caller says.
    let mut told = vec![in rt.alloc(); 0u8; MOST_TOLD]?;
    let n = lint(text.as_slice(), told.as_mut_slice()).ok();
    let report = n
        .and_then(|n| told.as_slice().get(..n))
        .context("the report is too long")?;
    rt.stdout().write_all(report)?;
    Ok(())
}

fn main(rt: HostRuntime) -> anyhow::Result<()> {
    run(&rt)
}
