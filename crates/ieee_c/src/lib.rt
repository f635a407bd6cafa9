// The leaves and the four operations for C, so that a test can run them on any pattern: each export
// calls one leaf or has one operation.
#![tactic(auto)]

ghost use Rattle.std.specs.Prelude.{◌≡◌, ◌^◌, ◌≤◌, ◌<◌};
ghost use Rattle.std.specs.Float.{binary32};
ghost use Rattle.std.specs.Float.Ieee.{of_bits, to_bits, add, sub, mul, div};
ghost use Rattle.std.specs.Float.Ieee.Scale.{finite};
ghost use Rattle.ieee.specs.Range.{clamp_of, max_of, tiny_of};
ghost use Rattle.ieee.specs.Casts.{floor_of, ceil_of, byte_of, unit_byte_of, texel_of};
ghost use Rattle.ieee.specs.Box.{first_of, past_of};
ghost use Rattle.ieee.specs.Root.{root};

#[unsafe(no_mangle)]
pub extern "C" fn ieee_float_of(bits: u32) -> f32
    ensures { result ≡ of_bits binary32 bits }
{
    ieee::bits::float_of(bits)
}

#[unsafe(no_mangle)]
pub extern "C" fn ieee_bits_of(x: f32) -> u32
    ensures { result ≡ to_bits binary32 x }
{
    ieee::bits::bits_of(x)
}

#[unsafe(no_mangle)]
pub extern "C" fn ieee_is_finite(x: f32) -> bool
    ensures { result ≡ finite x }
{
    ieee::bits::is_finite(x)
}

#[unsafe(no_mangle)]
pub extern "C" fn ieee_clamp01(x: f32) -> f32
    ensures { result ≡ clamp_of x }
{
    ieee::range::clamp01(x)
}

#[unsafe(no_mangle)]
pub extern "C" fn ieee_max0(x: f32) -> f32
    ensures { result ≡ max_of x }
{
    ieee::range::max0(x)
}

#[unsafe(no_mangle)]
pub extern "C" fn ieee_tiny(x: f32) -> bool
    ensures { result ≡ tiny_of x }
{
    ieee::range::tiny(x)
}

#[unsafe(no_mangle)]
pub extern "C" fn ieee_floor_i32(x: f32) -> i32
    ensures { result ≡ floor_of x }
{
    ieee::cast::floor_i32(x)
}

#[unsafe(no_mangle)]
pub extern "C" fn ieee_ceil_i32(x: f32) -> i32
    ensures { result ≡ ceil_of x }
{
    ieee::cast::ceil_i32(x)
}

#[unsafe(no_mangle)]
pub extern "C" fn ieee_byte(v: f32) -> u8
    ensures { result ≡ byte_of v }
{
    ieee::cast::byte(v)
}

#[unsafe(no_mangle)]
pub extern "C" fn ieee_unit_byte(v: f32) -> u8
    ensures { result ≡ unit_byte_of v }
{
    ieee::cast::unit_byte(v)
}

#[unsafe(no_mangle)]
pub extern "C" fn ieee_first(x: f32) -> u32
    ensures { result ≡ first_of x }
{
    ieee::cast::first(x)
}

#[unsafe(no_mangle)]
pub extern "C" fn ieee_past(x: f32) -> u32
    ensures { result ≡ past_of x }
{
    ieee::cast::past(x)
}

#[unsafe(no_mangle)]
pub extern "C" fn ieee_texel(u: f32, side: u32) -> usize
    requires side_nonzero { 0 < side }
    requires side_bound { side ≤ 2 ^ 24 }
    ensures { result ≡ texel_of u side }
{
    ieee::cast::texel(u, side)
}

#[unsafe(no_mangle)]
pub extern "C" fn ieee_sqrt(x: f32) -> f32
    ensures { result ≡ root x }
{
    ieee::root::sqrt(x)
}

#[unsafe(no_mangle)]
pub extern "C" fn ieee_add(x: f32, y: f32) -> f32
    ensures { result ≡ add binary32 x y }
{
    x + y
}

#[unsafe(no_mangle)]
pub extern "C" fn ieee_sub(x: f32, y: f32) -> f32
    ensures { result ≡ sub binary32 x y }
{
    x - y
}

#[unsafe(no_mangle)]
pub extern "C" fn ieee_mul(x: f32, y: f32) -> f32
    ensures { result ≡ mul binary32 x y }
{
    x * y
}

#[unsafe(no_mangle)]
pub extern "C" fn ieee_div(x: f32, y: f32) -> f32
    ensures { result ≡ div binary32 x y }
{
    x / y
}
