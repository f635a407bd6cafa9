// The square root, correctly rounded: a guess by float arithmetic, tested over whole numbers.
ghost use Rattle.std.specs.Prelude.{◌≡◌, ◌<◌, not, T, from_bits, is_nan};
ghost use Rattle.std.specs.Float.{binary32};
ghost use Rattle.ieee.specs.Units.{wholes};
ghost use Rattle.ieee.specs.Root.{root, root_wholes};

// A guess at the pattern of the root of x, whose own pattern is b. y is nearly 1.42 / √x, by half
// the exponent and one step of Newton's method: x * y * y is from 2.015 to 2.021, except for
// subnormals. In that range the parabola is one over its root, to one part in 2^32. The last line
// rounds an f64 to 24 digits. Nothing is promised of the guess. It is wrong for about one x in 700,
// and for subnormals.
fn guess(x: f32, b: u32) -> u32
    requires { T (not (is_nan x)) × (b < 0x7f80_0000) }
{
    let w = x as f64;
    let p = f64::from_bits(0x43e4_0000_0000_0000 - (b as u64) * 0x1000_0000);
    let y = p * (2.3893 - w * p * p);
    let m = w * y;
    let q = m * y - 3.3635067458;
    let s = m * 0.064814582637 * (q * q + 9.050533485);
    if s > 0.0 {
        (((f64::to_bits(s) / 0x1000_0000 + 1) / 2 + 0x4000_0000) % 0x1_0000_0000) as u32
    } else {
        0
    }
}

// From the bit pattern of a number above 0 to its root's. p is a guess. It is the answer if its
// digits c are the whole number nearest to the root of a.
fn root_bits(b: u32, p: u32) -> u32
    requires { (0 < b) × (b < 0x7f80_0000) }
    ensures { (result < 0x7f80_0000) × (from_bits binary32 result ≡ root_wholes (wholes (from_bits binary32 b))) }
{
    if 0x80_0000 <= b {
        let t = 125 + b / 0x80_0000;
        let a = ((b % 0x80_0000 + 0x80_0000) as u64) << (23 + t % 2);
        let c = std::num::wrapping_sub_u32(p, t / 2 * 0x80_0000) as u64;
        if c * c < a + c && a <= c * c + c {
            return p;
        }
    }
    super::digits::root_bits(b)
}

pub fn sqrt(x: f32) -> f32
    ensures { result ≡ root x }
{
    if x > 0.0 {
        if x < f32::INFINITY {
            let b = x.to_bits();
            return f32::from_bits(root_bits(b, guess(x, b)));
        }
        return x;
    }
    if x == 0.0 { x } else { f32::NAN }
}
