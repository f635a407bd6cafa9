// The matrix that takes normals to view space: three by three, the inverse of the model-view's,
// transposed.
ghost use Rattle.std.specs.Prelude.{◌≡◌};
ghost use Rattle.vector.specs.Normals.{corner_of, minor_of, det_of, cofactors_of, inverse_transpose_of, apply_of};

use crate::matrix::Matrix;
use crate::three::dot;

// Row by row, with the original's letters.
#[derive(Clone, Copy, Debug, PartialEq)]
pub struct Matrix3 {
    pub a: f32,
    pub b: f32,
    pub c: f32,
    pub d: f32,
    pub e: f32,
    pub f: f32,
    pub g: f32,
    pub h: f32,
    pub i: f32,
}

fn corner(matrix: Matrix) -> Matrix3
    ensures { result ≡ corner_of matrix }
{
    let [a, b, c, _, d, e, f, _, g, h, i, ..] = matrix.cells;
    Matrix3 {
        a,
        b,
        c,
        d,
        e,
        f,
        g,
        h,
        i,
    }
}

fn minor(p: f32, q: f32, r: f32, s: f32) -> f32
    ensures { result ≡ minor_of p q r s }
{
    p * q - r * s
}

fn determinant(m: Matrix3) -> f32
    ensures { result ≡ det_of m }
{
    m.a * minor(m.e, m.i, m.f, m.h) - m.b * minor(m.d, m.i, m.f, m.g)
        + m.c * minor(m.d, m.h, m.e, m.g)
}

// The cofactors, each times 1 / determinant. The original builds the inverse and then swaps rows
// and columns.
fn cofactors(m: Matrix3, inv_det: f32) -> Matrix3
    ensures { result ≡ cofactors_of m inv_det }
{
    Matrix3 {
        a: minor(m.e, m.i, m.f, m.h) * inv_det,
        b: minor(m.f, m.g, m.d, m.i) * inv_det,
        c: minor(m.d, m.h, m.e, m.g) * inv_det,
        d: minor(m.c, m.h, m.b, m.i) * inv_det,
        e: minor(m.a, m.i, m.c, m.g) * inv_det,
        f: minor(m.b, m.g, m.a, m.h) * inv_det,
        g: minor(m.b, m.f, m.c, m.e) * inv_det,
        h: minor(m.c, m.d, m.a, m.f) * inv_det,
        i: minor(m.a, m.e, m.b, m.d) * inv_det,
    }
}

// None if the determinant is not finite, or at most 2^-23 in size.
#[tactic(auto, unfolding(crate::specs::Normals::inverse_by))]
pub fn inverse_transpose_3x3(matrix: Matrix) -> Option<Matrix3>
    ensures { result ≡ inverse_transpose_of matrix }
{
    let m = corner(matrix);
    let det = determinant(m);
    if !ieee::bits::is_finite(det) || ieee::range::tiny(det) {
        return None;
    }
    Some(cofactors(m, 1.0 / det))
}

pub fn apply_normal_matrix(m: Matrix3, normal: [f32; 3]) -> [f32; 3]
    ensures { result ≡ apply_of m normal }
{
    [
        dot([m.a, m.b, m.c], normal),
        dot([m.d, m.e, m.f], normal),
        dot([m.g, m.h, m.i], normal),
    ]
}
