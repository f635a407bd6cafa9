// Feeds the words of standard input to the machine, each four bytes with the lowest first, and
// writes the plane to standard output as a PNG. What was refused is said on standard error, and the
// picture is written all the same.
#![tactic(auto)]

mod picture;
mod refusal;

use machine::Machine;
use std::alloc::Global;
use std::io;
use std::io::Read;

// Each store has room for the greatest upload of its kind, once.
const STORE: usize = 524288;

const CHUNK: usize = 65536;

// Feeds the input to its end, and says whether it ends inside a word.
fn serve(alloc: Global, input: &mut impl Read, machine: &mut Machine) -> io::Result<bool> {
    let mut bytes = vec![in alloc; 0; CHUNK]?;
    let mut words = vec![in alloc; 0; CHUNK / 4]?;
    // A proved loop has to end, and nothing says that an input does.
    for _ in 0..u64::MAX {
        let got = console::read_full(input, &mut bytes)?;
        let n = words::words_of(&bytes[..got], &mut words);
        machine.feed(&words[..n]);
        if got < CHUNK {
            return Ok(got % 4 != 0);
        }
    }
    Ok(false)
}

fn main(rt: HostRuntime) -> io::Result<()> {
    let mut machine = Machine::new(rt.alloc(), STORE)?;
    machine.reset();
    let cut = serve(rt.alloc(), &mut rt.stdin(), &mut machine)?;
    picture::write(rt.stdout(), &machine.plane)?;
    refusal::report(&rt, machine.state, cut)
}
