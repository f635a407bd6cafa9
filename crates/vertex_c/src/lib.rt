// What happens to a corner, on flat records, so that a test can run it on any input: each function
// reads one record and calls one function of `vector`, `light` or `clip`. `vertex_c_c` has them for C.
#![tactic(auto)]

mod polygon;
pub mod record;

ghost use Rattle.std.specs.Prelude.{◌*◌, ◌≤◌, length};

use vector::matrix::Matrix;
use vector::normal::Matrix3;

// Matrix 16, position 4.
pub fn vertex_transform(x: &[f32]) -> [f32; 4]
    requires { 20 ≤ length x.now }
{
    let m = record::matrices(x);
    vector::matrix::transform_matrix(&m, 0, record::cells(x, 16))
}

// Two matrices of 16.
pub fn vertex_multiply(x: &[f32]) -> [f32; 16]
    requires { 32 ≤ length x.now }
{
    let m = record::matrices(x);
    vector::matrix::multiply_matrix(&m, 0, 1).cells
}

fn nine(m: Matrix3) -> [f32; 9] {
    [m.a, m.b, m.c, m.d, m.e, m.f, m.g, m.h, m.i]
}

// A matrix of 16, which may have no inverse.
pub fn vertex_inverse(x: &[f32]) -> Option<[f32; 9]>
    requires { 16 ≤ length x.now }
{
    let cells = record::cells(x, 0);
    vector::normal::inverse_transpose_3x3(Matrix { cells }).map(nine)
}

// Three by three matrix 9, normal 3.
pub fn vertex_apply(x: &[f32]) -> [f32; 3]
    requires { 12 ≤ length x.now }
{
    let m = Matrix3 {
        a: x[0],
        b: x[1],
        c: x[2],
        d: x[3],
        e: x[4],
        f: x[5],
        g: x[6],
        h: x[7],
        i: x[8],
    };
    vector::normal::apply_normal_matrix(m, record::cells(x, 9))
}

pub fn vertex_normalize(x: &[f32]) -> [f32; 3]
    requires { 3 ≤ length x.now }
{
    vector::three::normalize(record::cells(x, 0))
}

// Albedo 4, position 3, normal 3, eight lights of 16.
pub fn vertex_shade(x: &[f32]) -> [f32; 4]
    requires { 138 ≤ length x.now }
{
    let albedo = record::cells(x, 0);
    let position = record::three(x, 4);
    let normal = record::three(x, 7);
    light::shade_vertex(albedo, position, normal, &record::lights(x))
}

// A position of 4.
pub fn vertex_distance(x: &[f32], plane: usize) -> f32
    requires { 4 ≤ length x.now }
{
    clip::vertex::clip_distance(record::corner(record::cells(x, 0)), plane)
}

// `count` vertices of 16 go in, and the answer says how many come out.
// Stays: a buffer and a count, as `vertex_c_c` exports it.
pub fn vertex_clip(x: &[f32], count: usize, plane: usize, out: &mut [f32; 448]) -> usize
    requires { (count ≤ 19) × (count * 16 ≤ length x.now) }
    ensures { result ≤ 28 }
{
    let cut = clip::polygon::clip_polygon(polygon::of(x, count), plane);
    polygon::put(cut, out)
}

// Three vertices of 16 go in, and the answer says how many come out.
pub fn vertex_clip_all(x: &[f32], out: &mut [f32; 448]) -> usize
    requires { 48 ≤ length x.now }
    ensures { result ≤ 28 }
{
    let a = record::vertex(x, 0);
    let b = record::vertex(x, 16);
    let c = record::vertex(x, 32);
    let cut = clip::polygon::clip_all([a, b, c]);
    polygon::put(cut, out)
}
