// What a line of `cases`' table can ask, and what is written for it: about a call and what it left,
// about a pixel that was read, and of functions inside the machine.
#![tactic(auto)]

pub mod amount;
mod inner;

use amount::Amount;
use screen::plane::{PIXELS, Rgba, VPU_WIDTH, WrongLength};
use state::State;
use std::io;
use std::io::{Stdout, Write};
use trial::line::Op;
use trial::memories::Fill;

// What a call answered, how much of state and memories it changed, and what it left: the state, and
// as much of plane and depths as it was lent.
#[derive(Clone, Copy)]
pub struct Seen<'a> {
    pub answer: u32,
    pub changed: Amount,
    pub state: State,
    pub plane: &'a [u8],
    pub depth: &'a [i32],
    pub depth_f32: &'a [f32],
}

// A pixel that a flat triangle drew has alpha 255, one of a reset plane 0.
fn is_drawn(read: Result<Rgba, WrongLength>) -> bool {
    read.is_ok_and(|c| c.a == 255)
}

// How many pixels were drawn.
fn count(plane: &[u8]) -> usize {
    (0..PIXELS)
        .filter(|i| is_drawn(screen::plane::pixel(plane, *i % VPU_WIDTH, *i / VPU_WIDTH)))
        .count()
}

fn colour(out: &mut Stdout, c: Rgba) -> io::Result<()> {
    let Rgba { r, g, b, a } = c;
    write!(out, "{r},{g},{b},{a}")
}

fn framing(out: &mut Stdout, state: &State) -> io::Result<()> {
    let wanted = state.wanted;
    if state.opcode == 0 && wanted == 0 {
        write!(out, "next is a header")
    } else {
        write!(out, "wants {wanted} words")
    }
}

// How much was cleared. What is cleared becomes white.
fn cleared(seen: &Seen) -> Amount {
    Amount::of(
        Fill::MARKS.fills(seen.plane, seen.depth, seen.depth_f32),
        Fill::WHITE.fills(seen.plane, seen.depth, seen.depth_f32),
    )
}

fn depth_at(out: &mut Stdout, depth: &[i32], x: u32, y: u32) -> io::Result<()> {
    match depth.get(y as usize * VPU_WIDTH + x as usize) {
        Some(z) => write!(out, "{z}"),
        None => Ok(()),
    }
}

// Of the textures' slots the first three can be asked for.
fn slot(out: &mut Stdout, state: &State, i: u32) -> io::Result<()> {
    match state.textures[..3].get(i as usize) {
        Some(s) if s.held => {
            let number = s.number;
            let start = s.start;
            write!(out, "{number} at {start}")
        }
        _ => Ok(()),
    }
}

pub fn answer(out: &mut Stdout, seen: &Seen) -> io::Result<()> {
    let answer = seen.answer;
    let changed = seen.changed;
    write!(out, "{answer}, {changed} changed")
}

// What the operation asks, by the letters of the table's head. `read` is the pixel at its first two
// numbers.
// Stays: a letter is text, looked at here alone; an enum between would name each of them twice.
pub fn value(
    out: &mut Stdout,
    op: Op,
    seen: &Seen,
    read: Result<Rgba, WrongLength>,
) -> io::Result<()> {
    let [a, b, ..] = op.numbers;
    match op.letter {
        b'S' => write!(out, "{}", seen.state.notes.status),
        b'F' => framing(out, &seen.state),
        b'C' => write!(out, "{}", cleared(seen)),
        b'N' => write!(out, "{}", count(seen.plane)),
        b'A' => write!(out, "{}", if is_drawn(read) { "among them" } else { "not" }),
        b'P' => colour(out, read.unwrap_or(Rgba::CLEAR)),
        b'Q' => write!(out, "{}", u8::from(read.is_err())),
        b'Z' => depth_at(out, seen.depth, a, b),
        b'H' => slot(out, &seen.state, a),
        b'X' => write!(out, "{}", inner::shaded(a)),
        b'T' => inner::texel(out, a),
        b'R' => write!(out, "{:08x}", inner::root(a)),
        _ => answer(out, seen),
    }
}
