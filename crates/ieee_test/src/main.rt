// Runs each leaf of `ieee` on the patterns of standard input, little-endian words, and prints a
// line for it: its name, and the digest of its answers. oracle/floats.py wrote the input and the
// lines.
#![tactic(auto)]

use ieee::bits::{bits_of, float_of, is_finite};
use ieee::cast::{byte, ceil_i32, first, floor_i32, past, texel, unit_byte};
use ieee::range::{abs, clamp01, max0, tiny};
use ieee::root::sqrt;
use std::io;
use std::io::Stdout;

const MOST: usize = 524288;

fn low(n: usize) -> u32 {
    (n % 4294967296) as u32
}

// What the leaf answers at each pattern, as a word.
fn line<F: Fn(f32) -> u32>(out: Stdout, bytes: &[u8], name: &str, leaf: F) -> io::Result<()>
    requires { F.IsAlwaysCallable leaf }
{
    let (patterns, _) = bytes.as_chunks::<4>();
    let mut digest = digest::START;
    for pattern in patterns {
        let bits = u32::from_le_bytes(*pattern);
        digest = digest::word(digest, leaf(float_of(bits)));
    }
    println!(out; "{name} {digest:016x}")
}

fn lines(out: Stdout, bytes: &[u8]) -> io::Result<()> {
    line(out, bytes, "float_of", |x| bits_of(x))?;
    line(out, bytes, "is_finite", |x| u32::from(is_finite(x)))?;
    line(out, bytes, "clamp01", |x| bits_of(clamp01(x)))?;
    line(out, bytes, "max0", |x| bits_of(max0(x)))?;
    line(out, bytes, "abs", |x| bits_of(abs(x)))?;
    line(out, bytes, "tiny", |x| u32::from(tiny(x)))?;
    line(out, bytes, "floor_i32", |x| floor_i32(x).cast_unsigned())?;
    line(out, bytes, "ceil_i32", |x| ceil_i32(x).cast_unsigned())?;
    line(out, bytes, "byte", |x| u32::from(byte(x)))?;
    line(out, bytes, "unit_byte", |x| u32::from(unit_byte(x)))?;
    line(out, bytes, "texel1", |x| low(texel(x, 1)))?;
    line(out, bytes, "texel7", |x| low(texel(x, 7)))?;
    line(out, bytes, "texel1024", |x| low(texel(x, 1024)))?;
    line(out, bytes, "first", first)?;
    line(out, bytes, "past", past)?;
    line(out, bytes, "sqrt", |x| bits_of(sqrt(x)))
}

fn main(rt: HostRuntime) -> io::Result<()> {
    let mut bytes = vec![in rt.alloc(); 0u8; MOST]?;
    let got = console::read_full(&mut rt.stdin(), &mut bytes)?;
    lines(rt.stdout(), &bytes[..got])
}
