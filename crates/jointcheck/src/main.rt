// Reads cards from standard input and answers them on standard output.
#![tactic(auto)]

ghost use Rattle.std.specs.Prelude.{◌≤◌, length, IfOk};

use decks::respond::{TOO_LONG, respond};
use std::io;
use std::io::{Read, Write};

// Fills the buffer from standard input: how many bytes came. By a `while`: how many a read brings is known only from that read.
fn fill(rt: &HostRuntime, buffer: &mut [u8]) -> io::Result<usize>
    ensures { IfOk result (λ n. n ≤ length buffer.old) }
{
    let mut input = rt.stdin();
    let mut n = 0;
    while n < buffer.len() {
        let k = input.read(&mut buffer[n..])?;
        if k == 0 {
            break;
        }
        n += k;
    }
    Ok(n)
}

fn main(rt: HostRuntime) -> io::Result<()> {
    // A buffer with its count beside it and no Vec, by a rule of the project: it is filled once, and wants no memory.
    let mut buffer = [0u8; 32768];
    let count = fill(&rt, &mut buffer)?;
    let mut beyond = [0u8; 1];
    if fill(&rt, &mut beyond)? > 0 {
        return rt.print(TOO_LONG);
    }
    let text = respond(rt.alloc(), &buffer[0..count])?;
    rt.stdout().write_all(text.as_bytes())
}
