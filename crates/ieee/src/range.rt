// Floats brought to a range, and their magnitude.
ghost use Rattle.std.specs.Prelude.{◌≡◌};
ghost use Rattle.ieee.specs.Range.{clamp_of, max_of, abs_of, tiny_of};

pub fn clamp01(x: f32) -> f32
    ensures { result ≡ clamp_of x }
{
    x.clamp(0.0, 1.0)
}

// Stays: std's `max` may answer either of two zeros, and `max_of` is 0.0 at -0.0.
pub fn max0(x: f32) -> f32
    ensures { result ≡ max_of x }
{
    if x > 0.0 { x } else { 0.0 }
}

pub fn abs(x: f32) -> f32
    ensures { result ≡ abs_of x }
{
    x.abs()
}

pub fn tiny(x: f32) -> bool
    ensures { result ≡ tiny_of x }
{
    abs(x) <= f32::EPSILON
}
