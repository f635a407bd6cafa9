// The cases whose number is inside a call, asked of the compiled function that gives it.
use face::Corners;
use ieee::bits::{bits_of, float_of};
use raster::ink::{Ink, Sampler, Tone};
use std::io;
use std::io::{Stdout, Write};

// Case 9: a channel of 128 under a shade.
pub fn shaded(shade: u32) -> u8 {
    flat::tri::tri_of(&[0, 0, 10, 4, 0, 10, 0, 4, 10, 0x80_8080, shade])
        .color
        .r
}

fn corners(a: f32) -> Corners {
    Corners {
        c0: a,
        c1: a,
        c2: a,
    }
}

// Case 11: the one texel of a 1 by 1 texture.
pub fn texel(out: &mut Stdout, word: u32) -> io::Result<()> {
    let zero = corners(0.0);
    let s = Sampler {
        width: 1,
        height: 1,
        u: zero,
        v: zero,
    };
    let ink = Ink::Textured(s, Tone::Plain);
    match raster::ink::shade_at(&[word], ink, corners(0.25), corners(1.0)) {
        Some(c) => crate::colour(out, c),
        None => write!(out, "none"),
    }
}

// Case 13.
pub fn root(bits: u32) -> u32 {
    bits_of(ieee::root::sqrt(float_of(bits)))
}
