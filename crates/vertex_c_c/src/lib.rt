// `vertex_c` for C, function by function.
#![tactic(auto)]

ghost use Rattle.std.specs.Prelude.{◌*◌, ◌≤◌, length};

// Matrix 16, position 4.
#[unsafe(no_mangle)]
pub extern "C" fn vertex_transform(x: &[f32], out: &mut [f32; 4])
    requires { 20 ≤ length x.now }
{
    *out = vertex_c::vertex_transform(x);
}

// Two matrices of 16.
#[unsafe(no_mangle)]
pub extern "C" fn vertex_multiply(x: &[f32], out: &mut [f32; 16])
    requires { 32 ≤ length x.now }
{
    *out = vertex_c::vertex_multiply(x);
}

// A matrix of 16. If there is no inverse, the answer is false and nothing is written.
// Stays: C has no Option, so a flag and an array.
#[unsafe(no_mangle)]
pub extern "C" fn vertex_inverse(x: &[f32], out: &mut [f32; 9]) -> bool
    requires { 16 ≤ length x.now }
{
    match vertex_c::vertex_inverse(x) {
        Some(inverse) => {
            *out = inverse;
            true
        }
        None => false,
    }
}

// Three by three matrix 9, normal 3.
#[unsafe(no_mangle)]
pub extern "C" fn vertex_apply(x: &[f32], out: &mut [f32; 3])
    requires { 12 ≤ length x.now }
{
    *out = vertex_c::vertex_apply(x);
}

#[unsafe(no_mangle)]
pub extern "C" fn vertex_normalize(x: &[f32], out: &mut [f32; 3])
    requires { 3 ≤ length x.now }
{
    *out = vertex_c::vertex_normalize(x);
}

// Albedo 4, position 3, normal 3, eight lights of 16.
#[unsafe(no_mangle)]
pub extern "C" fn vertex_shade(x: &[f32], out: &mut [f32; 4])
    requires { 138 ≤ length x.now }
{
    *out = vertex_c::vertex_shade(x);
}

// A position of 4.
#[unsafe(no_mangle)]
pub extern "C" fn vertex_distance(x: &[f32], plane: usize) -> f32
    requires { 4 ≤ length x.now }
{
    vertex_c::vertex_distance(x, plane)
}

// `count` vertices of 16 go in, and the answer says how many come out.
#[unsafe(no_mangle)]
pub extern "C" fn vertex_clip(x: &[f32], count: usize, plane: usize, out: &mut [f32; 448]) -> usize
    requires { (count ≤ 19) × (count * 16 ≤ length x.now) }
    ensures { result ≤ 28 }
{
    vertex_c::vertex_clip(x, count, plane, out)
}

// Three vertices of 16 go in, and the answer says how many come out.
#[unsafe(no_mangle)]
pub extern "C" fn vertex_clip_all(x: &[f32], out: &mut [f32; 448]) -> usize
    requires { 48 ≤ length x.now }
    ensures { result ≤ 28 }
{
    vertex_c::vertex_clip_all(x, out)
}
