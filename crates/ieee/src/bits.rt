// Floats and their bit patterns.
ghost use Rattle.std.specs.Prelude.{◌≡◌, length, from_bits, to_bits};
ghost use Rattle.std.specs.Float.{binary32};
ghost use Rattle.std.specs.Float.Ieee.Scale.{finite};
ghost use Rattle.ieee.specs.Words.{floats_of, all_finite};

// The value of a bit pattern. `f32::from_bits` is undefined at a NaN's pattern, which is one above
// the infinity's once the sign is cut off; there the answer is a NaN.
#[tactic(auto, using(crate::proofs::Compare::above_is_nan))]
pub fn float_of(bits: u32) -> f32
    ensures { result ≡ from_bits binary32 bits }
{
    if bits % 0x8000_0000 > 0x7f80_0000 {
        f32::NAN
    } else {
        f32::from_bits(bits)
    }
}

// The bit pattern of a value, 7fc00000 for every NaN.
pub fn bits_of(x: f32) -> u32
    ensures { result ≡ to_bits binary32 x }
{
    if x.is_nan() { 0x7fc0_0000 } else { x.to_bits() }
}

// Strictly between the infinities.
pub fn is_finite(x: f32) -> bool
    ensures { result ≡ finite x }
{
    x.is_finite()
}

pub fn finite_bits(bits: u32) -> bool
    ensures { result ≡ finite (from_bits binary32 bits) }
{
    is_finite(float_of(bits))
}

// Is none of them infinite, or a NaN?
pub fn all_finite(xs: &[f32]) -> bool
    ensures { result ≡ all_finite xs.now }
{
    xs.iter().all(|x| is_finite(*x))
}

// The words' values, in their order.
pub fn floats_of(words: &[u32], out: &mut [f32])
    requires { length words.now ≡ length out.old }
    ensures { out.new ≡ floats_of words.now }
{
    for (i, word) in words.iter().enumerate() {
        out[i] = float_of(*word);
    }
}
