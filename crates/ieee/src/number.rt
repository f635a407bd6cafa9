// Integers to floats. Up to 2^24 nothing is rounded (proofs/Whole.antt).
ghost use Rattle.std.specs.Prelude.{◌≡◌, ◌<◌, pos};
ghost use Rattle.std.specs.Float.{binary32};
ghost use Rattle.std.specs.Float.Ieee.{of_int};
ghost use Rattle.ieee.specs.Number.{unit_of};

pub fn byte_float(b: u8) -> f32
    ensures { result ≡ of_int binary32 (pos b) }
{
    b as f32
}

// A colour's byte, from 0.0 to 1.0.
pub fn unit_float(b: u8) -> f32
    ensures { result ≡ unit_of b }
{
    byte_float(b) / 255.0
}

// A column or a row: by way of u16, whose cast to a float is free.
pub fn pixel_float(x: usize) -> f32
    requires { x < 320 }
    ensures { result ≡ of_int binary32 (pos x) }
{
    (x as u16) as f32
}
