// Runs a list of calls on a book by API RP 2A and prints each call with its answer.
#![tactic(auto)]

mod script;
mod shown;

use crate::script::CALLS;
use crate::shown::{Asked, Said};
use anyhow::Context;
use book::running::run;
use layers::pile::Pile;

fn main(rt: HostRuntime) -> anyhow::Result<()> {
    let pile = Pile::of(2, 100, 0).ok().context("no pile")?;
    let done = run(rt.alloc(), pile, &CALLS).ok().context("no memory")?;
    for (call, answer) in CALLS.iter().zip(done.answers.iter()) {
        println!(rt; "{}: {}", Asked(*call), Said(*answer))?;
    }
    Ok(())
}
