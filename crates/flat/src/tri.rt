// Command 12's eleven words: x, y and depth of each corner, then the colour and the shade.
ghost use Rattle.std.specs.Prelude.{◌≡◌, ◌+◌, ◌<◌, ◌≤◌, [], ◌∷◌, length};
ghost use Rattle.std.specs.Int.{w32};
ghost use Rattle.std.proofs.Common.{to_z};
ghost use Rattle.flat.specs.Words.{in_reach, first_out, shaded_of, corner_at, tri_of, flat_verdict};

use screen::plane::Rgba;
use verdict::{Verdict, out_of_range};

// How far a coordinate may be from 0, on both sides.
const FLAT_REACH: u64 = 8192;

// A corner, with its depth.
#[derive(Clone, Copy, Debug, PartialEq, Eq)]
pub struct Corner {
    pub x: i64,
    pub y: i64,
    pub z: i64,
}

// Three corners, and the colour after shading.
#[derive(Clone, Copy, Debug, PartialEq, Eq)]
pub struct Tri {
    pub p0: Corner,
    pub p1: Corner,
    pub p2: Corner,
    pub color: Rgba,
}

// A word, read as a signed number.
pub fn signed(word: u32) -> i64
    ensures { result ≡ to_z w32 word }
{
    i64::from(word.cast_signed())
}

#[tactic(auto, unfolding(crate::specs::Words::in_reach))]
pub fn in_reach(word: u32) -> bool
    ensures { result ≡ in_reach (to_z w32 word) }
{
    signed(word).unsigned_abs() <= FLAT_REACH
}

// Is the word i, a coordinate, in reach?
pub fn coordinate(p: &[u32], i: u32) -> Verdict
    requires { i < length p.now }
    ensures { result ≡ first_out p.now (i ∷ []) }
{
    if in_reach(p[i as usize]) {
        Ok(())
    } else {
        Err(out_of_range(i))
    }
}

// The first coordinate out of reach, in payload order. The depths, words 2, 5 and 8, have no bound.
pub fn verdict_of(p: &[u32]) -> Verdict
    requires { length p.now ≡ 11 }
    ensures { result ≡ flat_verdict p.now }
{
    for i in [0, 1, 3, 4, 6, 7] {
        coordinate(p, i)?;
    }
    Ok(())
}

// A channel under a shade, of which 255 is the whole.
#[tactic(auto, unfolding(crate::specs::Words::shaded_of))]
fn shaded(channel: u32, shade: u32) -> u8
    requires { channel < 256 }
    ensures { result ≡ shaded_of channel shade }
{
    (channel * shade.min(255) / 255) as u8
}

// The corner whose three words begin at `at`.
fn corner_of(p: &[u32], at: usize) -> Corner
    requires { at + 3 ≤ length p.now }
    ensures { result ≡ corner_at p.now at }
{
    Corner {
        x: signed(p[at]),
        y: signed(p[at + 1]),
        z: signed(p[at + 2]),
    }
}

#[tactic(auto, unfolding(crate::specs::Words::tri_of))]
pub fn tri_of(p: &[u32]) -> Tri
    requires { length p.now ≡ 11 }
    ensures { result ≡ tri_of p.now }
{
    let rgb = p[9];
    let shade = p[10];
    Tri {
        p0: corner_of(p, 0),
        p1: corner_of(p, 3),
        p2: corner_of(p, 6),
        color: Rgba {
            r: shaded(rgb / 65536 % 256, shade),
            g: shaded(rgb / 256 % 256, shade),
            b: shaded(rgb % 256, shade),
            a: 255,
        },
    }
}
