// What the words of a payload say, read as floats and as colours.
#![tactic(auto)]

ghost use Rattle.std.specs.Prelude.{◌≡◌, ◌+◌, ◌≤◌, ◌<◌, length};
ghost use Rattle.payload.specs.Words.{three_at, at_most, finite_from, color_of};

use ieee::number::unit_float;
use verdict::{Reason, Refused, Verdict, out_of_range};

pub fn three_at(p: &[u32], i: usize) -> [f32; 3]
    requires { i + 3 ≤ length p.now }
    ensures { result ≡ three_at p.now i }
{
    [
        ieee::bits::float_of(p[i]),
        ieee::bits::float_of(p[i + 1]),
        ieee::bits::float_of(p[i + 2]),
    ]
}

// A word that may be `most` at most.
pub fn at_most(p: &[u32], i: usize, most: u32) -> Verdict
    requires i_in_bounds { i < length p.now }
    requires i_bound { i < 4294967296 }
    ensures { result ≡ at_most p.now i most }
{
    if p[i] <= most {
        Ok(())
    } else {
        Err(out_of_range(i as u32))
    }
}

// The first of the n words from `start` on that is no finite float, if there is one.
pub fn finite_from(p: &[u32], start: usize, n: usize) -> Verdict
    requires n_in_bounds { start + n ≤ length p.now }
    requires p_len_bound { length p.now ≤ 4294967295 }
    ensures { result ≡ finite_from p.now start n }
{
    for i in start..start + n {
        if !ieee::bits::finite_bits(p[i]) {
            return Err(Refused {
                reason: Reason::NotFinite,
                index: i as u32,
            });
        }
    }
    Ok(())
}

// RGBA, red in the top byte, as floats from 0.0 to 1.0.
#[tactic(auto, unfolding(crate::specs::Words::color_of))]
pub fn color_of(word: u32) -> [f32; 4]
    ensures { result ≡ color_of word }
{
    let [red, green, blue, alpha] = word.to_be_bytes();
    [
        unit_float(red),
        unit_float(green),
        unit_float(blue),
        unit_float(alpha),
    ]
}
