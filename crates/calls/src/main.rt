// Tries lists of calls on a book of attack rows. It takes paths in threes: a station's profile, the manual's, and the
// calls. Where there are none, it takes station.prf, manual.prf and calls.txt.
#![tactic(auto)]

mod judging;
mod printing;
mod reading;

use anyhow::ensure;
use judging::judge;
use std::env;
use std::fs::File;
use std::io::{Read, Write};

// A text of over 20,000 bytes is refused, so no more of a file is read than shows that.
const MOST_READ: u64 = 20001;

fn text_of(rt: &HostRuntime, path: &str) -> anyhow::Result<Vec<u8>> {
    let mut text = Vec::new(rt.alloc());
    File::open(rt, path)?
        .take(MOST_READ)
        .read_to_end(&mut text)?;
    Ok(text)
}

// Prints what comes of the texts of three files: a station's profile, the manual's, and the calls.
fn try_calls(rt: &HostRuntime, [station, manual, calls]: [&str; 3]) -> anyhow::Result<()> {
    let station = text_of(rt, station)?;
    let manual = text_of(rt, manual)?;
    let calls = text_of(rt, calls)?;
    let told = judge(
        rt.alloc(),
        station.as_slice(),
        manual.as_slice(),
        calls.as_slice(),
    )?;
    rt.stdout().write_all(told.as_bytes())?;
    Ok(())
}

fn run(rt: &HostRuntime) -> anyhow::Result<()> {
    let paths: Vec<String> = env::args(rt)?.skip(1).collect(rt.alloc())?;
    if paths.is_empty() {
        return try_calls(rt, ["station.prf", "manual.prf", "calls.txt"]);
    }
    let (threes, rest) = paths.as_slice().as_chunks::<3>();
    ensure!(rest.is_empty(), "usage: calls [STATION MANUAL CALLS]...");
    for [station, manual, calls] in threes {
        try_calls(rt, [station.as_str(), manual.as_str(), calls.as_str()])?;
    }
    Ok(())
}

fn main(rt: HostRuntime) -> anyhow::Result<()> {
    run(&rt)
}
