// What was refused, on standard error, a line for each.
use state::State;
use std::io;

// The state after the last word; `cut` says that the input ended inside a word.
pub fn report(rt: &impl Eprint, state: State, cut: bool) -> io::Result<()> {
    let status = state.notes.status;
    if status & 4 != 0 {
        eprintln!(rt; "show: opcode 0 where a command should begin (status bit 2)")?;
    }
    if status & 8 != 0 {
        eprintln!(rt; "show: a command was refused (status bit 3)")?;
    }
    if status & 64 != 0 {
        eprintln!(rt; "show: no room for an upload (status bit 6)")?;
    }
    let wanted = state.wanted;
    if wanted > 0 {
        eprintln!(rt; "show: words that the last command lacks: {wanted}")?;
    }
    if cut {
        eprintln!(rt; "show: the input ends inside a word")?;
    }
    Ok(())
}
