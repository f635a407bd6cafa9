// The root of a number above 0, worked out over whole numbers alone. `root` tests a quicker guess
// first, and turns here for what that guess misses.
ghost use Rattle.std.specs.Prelude.{◌≡◌, ◌+◌, ◌*◌, ◌^◌, ◌<◌, ◌≤◌, from_bits};
ghost use Rattle.std.specs.Float.{binary32};
ghost use Rattle.ieee.specs.Units.{wholes};
ghost use Rattle.ieee.specs.Root.{root_wholes};

// A guess at the root of a, which is from 2^46 to 2^48: a line within 3 % of it, and then three
// steps of Heron's method. Nothing is promised of it but a bound.
fn rough(a: u64) -> u64
    requires { a < 2 ^ 48 }
    ensures { result ≤ 16777216 }
{
    let p = a / 24385488 + 5737808;
    let q = (p + a / p) / 2;
    let r = (q + a / q) / 2;
    let s = (r + a / r) / 2;
    if s < 16777216 { s } else { 16777216 }
}

// A guess at the whole number nearest to the root of a, brought down until it is not above it.
fn lowered(a: u64, guess: u64) -> u64
    requires { (0 < a) × (a < 2 ^ 48) × (guess ≤ 16777216) }
    ensures { (result ≤ 16777216) × (result * result < a + result) }
{
    let mut r = guess;
    while a + r <= r * r {
        r -= 1;
    }
    r
}

// The whole number nearest to the root of a.
fn near_root(a: u64) -> u64
    requires { (0 < a) × (a < 2 ^ 48) }
    ensures { (result * result < a + result) × (a ≤ result * result + result) }
{
    let mut r = lowered(a, rough(a));
    while r * r + r < a {
        r += 1;
    }
    r
}

// The root of d * 2^k units of 2^-149, as a bit pattern. d is moved up to 47 or 48 digits, so that
// the power of two that is left is a square.
fn root_of(d: u32, k: u32) -> u32
    requires { (0 < d) × (d < 2 ^ 24) × (k < 254) }
    ensures { (result < 0x7f80_0000) × (from_bits binary32 result ≡ root_wholes (d * 2 ^ k)) }
{
    let z = u32::leading_zeros(d) - 8;
    let t = 126 + k - z;
    let a = (d as u64) << (z + 23 + t % 2);
    let c = near_root(a);
    (t / 2) * 0x80_0000 + c as u32
}

// From the bit pattern of a number above 0 to its root's.
pub fn root_bits(b: u32) -> u32
    requires { (0 < b) × (b < 0x7f80_0000) }
    ensures { (result < 0x7f80_0000) × (from_bits binary32 result ≡ root_wholes (wholes (from_bits binary32 b))) }
{
    let field = b / 0x80_0000;
    let digits = b % 0x80_0000;
    if field == 0 {
        root_of(digits, 0)
    } else {
        root_of(digits + 0x80_0000, field - 1)
    }
}
