// Answers each file of cards that an argument names, as jointcheck answers standard input.
#![tactic(auto)]

use decks::respond::respond;
use std::{env, fs};

fn main(rt: HostRuntime) -> anyhow::Result<()> {
    for name in env::args(&rt)?.skip(1) {
        let bytes = fs::read(&rt, name.as_str())?;
        let text = respond(rt.alloc(), bytes.as_slice())?;
        println!(rt; "== {name}")?;
        print!(rt; "{text}")?;
    }
    Ok(())
}
