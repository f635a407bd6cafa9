// A stream's words on the machine, from a reset.
ghost use Rattle.std.specs.Prelude.{◌<◌};

use crate::tape::Calls;
use machine::Machine;
use std::io;
use std::io::Stdout;
use vpu::Answer;

fn report(out: Stdout, answer: Answer, machine: &Machine) -> io::Result<()> {
    let answer = u32::from(answer);
    let status = machine.state.notes.status;
    let plane = digest::bytes(digest::START, &machine.plane);
    let depth = digest::ints(digest::START, &machine.depth);
    let depth_f32 = digest::floats(digest::START, &machine.depth_f32);
    println!(out; "{answer} {status:08x} {plane:016x} {depth:016x} {depth_f32:016x}")
}

// By its calls, with a line after each.
pub fn by_calls(out: Stdout, machine: &mut Machine, calls: Calls) -> io::Result<()> {
    machine.reset();
    for words in calls {
        let answer = machine.feed(words);
        report(out, answer, machine)?;
    }
    Ok(())
}

// In calls of `size` words, with a line at the end.
pub fn in_pieces(
    out: Stdout,
    machine: &mut Machine,
    name: &str,
    words: &[u32],
    size: usize,
) -> io::Result<()>
    requires { 0 < size }
{
    let mut answer = machine.reset();
    for piece in words.chunks(size) {
        answer = machine.feed(piece);
    }
    print!(out; "{name} ")?;
    report(out, answer, machine)
}
