//! The program daybook: lines from standard input, an answer line for each to standard output.
#![tactic(auto)]

mod day;
mod session;

use day::Day;
use std::io::{BufWriter, Read};

const CHUNK_BYTES: usize = 65_536;

fn run(rt: &HostRuntime) -> anyhow::Result<()> {
    let heap = rt.alloc();
    let mut from = rt.stdin();
    let mut chunk = vec![in heap; 0u8; CHUNK_BYTES]?;
    let mut day = Day::new(heap, BufWriter::new(heap, rt.stdout())?)?;
    // Every loop is shown to end: this one by a count that no input reaches.
    for _ in 0..u64::MAX {
        let n = from.read(&mut chunk)?;
        if n == 0 {
            break;
        }
        day.feed(&chunk[..n])?;
        // Nothing that was read is left: the answers go out before the next read waits.
        day.flush()?;
    }
    day.finish()
}

fn main(rt: HostRuntime) -> anyhow::Result<()> {
    run(&rt)
}
