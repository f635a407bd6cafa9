// Replays the streams of the file that its first argument names, or of standard input, each three
// times from a reset: by its calls, in one call, and word by word. After each call of the first
// run, and at the end of the others, it prints the answer, the status, and digests of the plane and
// of both depths.
// A stream is a name of 24 bytes, a count, and as many words: for each call a count and its words.
#![tactic(auto)]

mod runs;
mod tape;

use machine::Machine;
use std::alloc::Global;
use std::io::{Read, Stdout};
use std::{env, fs, io};
use tape::{Calls, LONGEST};

// Words of a store. Some streams fill both to the last word.
const STORE: usize = 32760;

// Stream after stream.
fn play(alloc: Global, source: &mut impl Read, out: Stdout) -> io::Result<()> {
    let mut machine = Machine::new(alloc, STORE)?;
    let mut tape = vec![in alloc; 0; LONGEST]?;
    // A proved loop has to end, and nothing says that a file does.
    for _ in 0..u64::MAX {
        let Some(n) = tape::next(source, out, &mut tape)? else {
            return Ok(());
        };
        runs::by_calls(out, &mut machine, Calls(&tape[..n]))?;
        let n = tape::joined(&mut tape[..n]);
        runs::in_pieces(out, &mut machine, "whole", &tape[..n], LONGEST)?;
        runs::in_pieces(out, &mut machine, "words", &tape[..n], 1)?;
    }
    Ok(())
}

fn main(rt: HostRuntime) -> io::Result<()> {
    let mut args = env::args(&rt)?;
    let Some(path) = args.nth(1) else {
        return play(rt.alloc(), &mut rt.stdin(), rt.stdout());
    };
    match fs::open(&rt, path.as_str()) {
        Ok(mut file) => play(rt.alloc(), &mut file, rt.stdout()),
        Err(error) => eprintln!(rt; "{path}: {error}"),
    }
}
