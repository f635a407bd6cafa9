// Floats to whole numbers: total, saturating, NaN gives 0.
ghost use Rattle.std.specs.Prelude.{◌≡◌, ◌^◌, ◌<◌, ◌≤◌, T, pos, neg_ℤ, from_bits};
ghost use Rattle.std.specs.Float.{binary32};
ghost use Rattle.std.specs.Float.Ieee.{le};
ghost use Rattle.ieee.specs.Casts.{cut_of, cut_up_of, floor_of, ceil_of, byte_of, unit_byte_of, texel_of};
ghost use Rattle.ieee.specs.Box.{first_of, past_of};

// The last number of an i32.
const LAST: u32 = 0x7fff_ffff;

// x rounded down, and brought to the numbers from 0 to last, by std's cast. `cut` uses it if it has
// no shorter way.
// Stays: std's saturating cast goes by way of an f64, and small triangles took 6 % longer with it.
fn cut_cast(x: f32, last: u32) -> u32
    ensures { result ≡ cut_of x last }
{
    if x > -1.0 {
        if x < 18446744073709551616.0 {
            let n = std::num::truncating_f32_to_u64(x);
            return (last as u64).min(n) as u32;
        }
        return last;
    }
    0
}

// The same, for the bit pattern of a number from 1.0 to before 2^24.
fn cut_bits(b: u32, last: u32) -> u32
    requires { (0x3f80_0000 ≤ b) × (b < 0x4b80_0000) }
    ensures { result ≡ cut_of (from_bits binary32 b) last }
{
    ((b % 0x80_0000 + 0x80_0000) >> (150 - b / 0x80_0000)).min(last)
}

// The same, for any x.
pub fn cut(x: f32, last: u32) -> u32
    ensures { result ≡ cut_of x last }
{
    if x > 0.0 {
        let b = x.to_bits();
        if b < 0x3f80_0000 {
            return 0;
        }
        if b < 0x4b80_0000 {
            return cut_bits(b, last);
        }
        return cut_cast(x, last);
    }
    0
}

// x rounded up, and brought to the numbers from 0 to last: one more than x rounded down, if that is
// below x.
pub fn cut_up(x: f32, last: u32) -> u32
    ensures { result ≡ cut_up_of x last }
{
    if x > 0.0 {
        let n = cut(x, last);
        if n < last && (n as f64) < std::num::f32_to_f64_with_nan(x) {
            return n + 1;
        }
        return n;
    }
    0
}

// v brought to the numbers from 0.5 to 255.0, which does not change the byte that it is cut to.
// Stays: std's `clamp` leaves a NaN as it is.
fn near_byte(v: f32) -> f32
    ensures { T (le (from_bits binary32 0x3f00_0000) result) × T (le result (from_bits binary32 0x437f_0000)) × (cut_of result 255 ≡ cut_of v 255) }
{
    if v > 0.5 {
        if v < 255.0 {
            return v;
        }
        return 255.0;
    }
    0.5
}

// Without a branch, so that the compiler can cut two at once: the sum, 2^28 more, is exact, and its
// last 24 digits are the fraction.
pub fn byte(v: f32) -> u8
    ensures { result ≡ byte_of v }
{
    let b = f64::to_bits((near_byte(v) as f64) + 268435456.0);
    ((b >> 24) % 256) as u8
}

// A colour from 0.0 to 1.0 as a byte.
pub fn unit_byte(v: f32) -> u8
    ensures { result ≡ unit_byte_of v }
{
    byte(v * 255.0 + 0.5)
}

// The column or row of a texture at u.
pub fn texel(u: f32, side: u32) -> usize
    requires side_nonzero { 0 < side }
    requires side_bound { side ≤ 2 ^ 24 }
    ensures { result ≡ texel_of u side }
{
    cut(u * std::num::nearest_u32_to_f32(side), side - 1) as usize
}

// -n
fn negated(n: u32) -> i32
    requires { n ≤ 2147483648 }
    ensures { result ≡ neg_ℤ (pos n) }
{
    if n == 0 {
        return 0;
    }
    -1 - (n - 1) as i32
}

pub fn floor_i32(x: f32) -> i32
    ensures { result ≡ floor_of x }
{
    if x < 0.0 {
        negated(cut_up(-x, LAST + 1))
    } else {
        cut(x, LAST) as i32
    }
}

pub fn ceil_i32(x: f32) -> i32
    ensures { result ≡ ceil_of x }
{
    if x < 0.0 {
        negated(cut(-x, LAST + 1))
    } else {
        cut_up(x, LAST) as i32
    }
}

// The least of three of these is the first pixel of the three corners' box (proofs/Ends.antt).
pub fn first(x: f32) -> u32
    ensures { result ≡ first_of x }
{
    cut(x, LAST)
}

// The greatest of three of these is the first pixel past the three corners' box.
pub fn past(x: f32) -> u32
    ensures { result ≡ past_of x }
{
    if x <= -1.0 { 0 } else { cut_up(x, LAST) + 1 }
}
