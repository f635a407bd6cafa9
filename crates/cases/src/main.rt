// The thirteen cases, malformed states clause by clause, lent lengths one off and pixel
// reads, on the compiled calls: the table on standard input, whose head says how a line is read.
// What is in `stdout` was written by hand, from the rules.
#![tactic(auto)]

mod ask;
mod lend;

use std::alloc::Global;
use std::io;
use std::io::Stdout;
use trial::line;
use trial::line::{Line, MOST};
use trial::memories::Memories;
use trial::plan::Plan;

// A line: marks, its call, and what it writes.
fn play(
    out: &mut Stdout,
    line: Line,
    plan: &Plan,
    words: &[u32],
    memories: &mut Memories,
) -> io::Result<()> {
    if plan.marked {
        memories.mark();
    }
    let fed = lend::call(plan, words, memories);
    ask::write(out, line.written, &lend::seen(plan, fed, memories))
}

// The lines, one after the other. One that gives no words goes on with those of the line before.
fn run(out: &mut Stdout, alloc: Global, text: &[u8]) -> io::Result<()> {
    let mut memories = Memories::new(alloc)?;
    let mut words = ([0; MOST], 0);
    for text in text.split_inclusive(|b| *b == b'\n') {
        if line::is_line(text) {
            let line = Line::of(text);
            if let Some(given) = line.words() {
                words = given;
            }
            let (places, count) = &words;
            let plan = Plan::of_places(&line.ops());
            play(out, line, &plan, &places[..*count], &mut memories)?;
        }
    }
    Ok(())
}

fn main(rt: HostRuntime) -> io::Result<()> {
    let mut text = [0u8; 16384];
    let n = console::read_full(&mut rt.stdin(), &mut text)?;
    run(&mut rt.stdout(), rt.alloc(), &text[..n])
}
