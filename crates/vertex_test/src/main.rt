// Replays what the original makes of corners. Standard input has a section of 49,152 bytes for each
// function, records of a fixed number of floats one after another, each the lowest byte first. For
// each section it prints the function's name and the digest of all its answers.
#![tactic(auto)]

ghost use Rattle.std.specs.Prelude.{◌<◌, ◌≤◌};

use std::io;
use std::io::Write;

// The longest record has 138 floats.
const CELLS: usize = 138;

// The bytes of a function's section.
const SECTION: usize = 49152;

type Record = [f32; CELLS];

fn transform(h: u64, x: &Record) -> u64 {
    digest::floats(h, &vertex_c::vertex_transform(x))
}

fn multiply(h: u64, x: &Record) -> u64 {
    digest::floats(h, &vertex_c::vertex_multiply(x))
}

// 1 and the inverse, or 0.
fn inverse(h: u64, x: &Record) -> u64 {
    match vertex_c::vertex_inverse(x) {
        Some(inverse) => digest::floats(digest::word(h, 1), &inverse),
        None => digest::word(h, 0),
    }
}

fn apply(h: u64, x: &Record) -> u64 {
    digest::floats(h, &vertex_c::vertex_apply(x))
}

fn normalize(h: u64, x: &Record) -> u64 {
    digest::floats(h, &vertex_c::vertex_normalize(x))
}

fn shade(h: u64, x: &Record) -> u64 {
    digest::floats(h, &vertex_c::vertex_shade(x))
}

// The plane's number is a word before the position.
fn distance(h: u64, x: &Record) -> u64 {
    let plane = ieee::bits::bits_of(x[0]);
    let d = vertex_c::vertex_distance(&x[1..], plane as usize);
    digest::word(h, ieee::bits::bits_of(d))
}

// How many vertices, and then those.
fn clip_all(h: u64, x: &Record) -> u64 {
    let mut out = [0.0; 448];
    let count = vertex_c::vertex_clip_all(x, &mut out);
    digest::floats(digest::word(h, count as u32), &out[..count * 16])
}

// All the whole records of a section, of `size` bytes each.
fn records<F: Fn(u64, &Record) -> u64>(size: usize, section: &[u8], answer: F) -> u64
    requires size_nonzero { 0 < size }
    requires callable { F.IsAlwaysCallable answer }
{
    let mut h = digest::START;
    for record in section.chunks_exact(size) {
        let x = std::array::from_fn(|k| vertex_c::record::float_at(record, k));
        h = answer(h, &x);
    }
    h
}

// A function's line: its name and the digest of all its answers, each to so many floats.
fn line<F: Fn(u64, &Record) -> u64>(
    rt: &HostRuntime,
    name: &str,
    cells: usize,
    answer: F,
) -> io::Result<()>
    requires cells { (0 < cells) × (cells ≤ 138) }
    requires callable { F.IsAlwaysCallable answer }
{
    let mut section = vec![in rt.alloc(); 0u8; SECTION]?;
    let got = console::read_full(&mut rt.stdin(), &mut section)?;
    let h = records(cells * 4, &section[..got], answer);
    let mut out = rt.stdout();
    writeln!(out, "{name} {h:016x}")
}

fn main(rt: HostRuntime) -> io::Result<()> {
    line(&rt, "transform", 20, transform)?;
    line(&rt, "multiply", 32, multiply)?;
    line(&rt, "inverse", 16, inverse)?;
    line(&rt, "apply", 12, apply)?;
    line(&rt, "normalize", 3, normalize)?;
    line(&rt, "shade", 138, shade)?;
    line(&rt, "distance", 5, distance)?;
    line(&rt, "clip_all", 48, clip_all)
}
