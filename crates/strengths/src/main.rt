// Tells the seven strengths of each joint that standard input lists, by both editions, with their ends.
#![tactic(auto)]

use std::io::{BufRead, BufReader};

mod line;
mod report;
mod reported;
mod row;

fn main(rt: HostRuntime) -> anyhow::Result<()> {
    let heap = rt.alloc();
    let input = BufReader::new(heap, rt.stdin())?;
    for (number, bytes) in (1..=u64::MAX).zip(input.split(heap, b'\n')) {
        match line::read_joint(bytes?.as_slice()) {
            Ok(joint) => report::print_joint(&rt, number, &joint)?,
            Err(fault) => println!(rt; "line {number}: {fault}")?,
        }
    }
    Ok(())
}
