// A float triangle's corners. A vertex is its position, then its normal and its texture coordinates
// if the command has them, then its colour.
ghost use Rattle.std.specs.Prelude.{◌≡◌, ◌+◌, ◌≤◌, cond, length};
ghost use Rattle.decide.specs.Corners.{uv_at, color_at, stride_of, first_of, words_of, input_of, view_of, normal_at, normal_in, uv_in, corner_of, normal_matrix_of, corners_by};

use clip::vertex::ClipVertex;
use ieee::bits::float_of;
use payload::{color_of, three_at};
use vector::matrix::{multiply_matrix, transform_matrix};
use vector::normal::{Matrix3, apply_normal_matrix, inverse_transpose_3x3};
use vector::three::normalize;

// Which parts a command's vertices have: 14 neither, 16 normals, 18 texture coordinates, 19 both.
#[derive(Clone, Copy, Debug, PartialEq, Eq)]
pub struct Layout {
    pub has_normal: bool,
    pub textured: bool,
}

impl Layout {
    // How many words a vertex has before its texture coordinates, and before its colour.
    pub fn uv_at(self) -> usize
        ensures { result ≡ uv_at self.has_normal }
    {
        if self.has_normal { 6 } else { 3 }
    }

    pub fn color_at(self) -> usize
        ensures { result ≡ color_at self.has_normal self.textured }
    {
        let uv = self.uv_at();
        if self.textured { uv + 2 } else { uv }
    }

    // The first word of vertex i: a textured draw has the number and the mode before its vertices.
    pub fn first_word(self, i: usize) -> usize
        requires { i ≤ 2 }
        ensures { result ≡ first_of self.has_normal self.textured i }
    {
        let start = if self.textured { 2 } else { 0 };
        start + i * (self.color_at() + 1)
    }
}

fn input_at(p: &[u32], o: usize) -> [f32; 4]
    requires { o + 3 ≤ length p.now }
    ensures { result ≡ input_of p.now o }
{
    [float_of(p[o]), float_of(p[o + 1]), float_of(p[o + 2]), 1.0]
}

#[tactic(auto, unfolding(crate::specs::Corners::view_of))]
fn view_of(m: &[f32; 48], position: [f32; 4]) -> [f32; 4]
    ensures { result ≡ view_of m.now position }
{
    transform_matrix(m, 1, transform_matrix(m, 0, position))
}

#[tactic(auto, unfolding(crate::specs::Corners::normal_at))]
fn normal_at(matrix: Matrix3, normal: [f32; 3]) -> [f32; 3]
    ensures { result ≡ normal_at matrix normal }
{
    normalize(apply_normal_matrix(matrix, normal))
}

#[tactic(auto, unfolding(crate::specs::Corners::normal_in))]
fn normal_in(p: &[u32], o: usize, has_normal: bool, matrix: Matrix3) -> [f32; 3]
    requires { o + uv_at has_normal ≤ length p.now }
    ensures { result ≡ normal_in p.now o has_normal matrix }
{
    if has_normal {
        return normal_at(matrix, three_at(p, o + 3));
    }
    [0.0; 3]
}

#[tactic(auto, unfolding(crate::specs::Corners::uv_in))]
fn uv_in(p: &[u32], k: usize, textured: bool) -> [f32; 2]
    requires { k + cond textured 2 0 ≤ length p.now }
    ensures { result ≡ uv_in p.now k textured }
{
    if textured {
        return [float_of(p[k]), float_of(p[k + 1])];
    }
    [0.0; 2]
}

// The vertex whose first word is o.
#[tactic(auto, unfolding(crate::specs::Corners::corner_of, crate::specs::Corners::projected_of))]
pub fn corner(p: &[u32], o: usize, layout: Layout, m: &[f32; 48], matrix: Matrix3) -> ClipVertex
    requires { o + stride_of layout.has_normal layout.textured ≤ length p.now }
    ensures { result ≡ corner_of p.now o layout.has_normal layout.textured m.now matrix }
{
    let view = view_of(m, input_at(p, o));
    let [x, y, z, _] = view;
    ClipVertex {
        position: transform_matrix(m, 2, view),
        view_position: [x, y, z],
        normal: normal_in(p, o, layout.has_normal, matrix),
        color: color_of(p[o + layout.color_at()]),
        uv: uv_in(p, o + layout.uv_at(), layout.textured),
    }
}

// What is handed on if there is no matrix for normals. Nothing reads it.
pub const NO_MATRIX: Matrix3 = Matrix3 {
    a: 0.0,
    b: 0.0,
    c: 0.0,
    d: 0.0,
    e: 0.0,
    f: 0.0,
    g: 0.0,
    h: 0.0,
    i: 0.0,
};

// The matrix for normals, if the command has them.
#[tactic(auto, unfolding(crate::specs::Corners::normal_matrix_of))]
pub fn normal_matrix(m: &[f32; 48], has_normal: bool) -> Option<Matrix3>
    ensures { result ≡ normal_matrix_of m.now has_normal }
{
    if has_normal {
        return inverse_transpose_3x3(multiply_matrix(m, 1, 0));
    }
    Some(NO_MATRIX)
}

#[tactic(auto, unfolding(crate::specs::Corners::corners_by))]
pub fn corners(p: &[u32], layout: Layout, m: &[f32; 48], matrix: Matrix3) -> [ClipVertex; 3]
    requires { words_of layout.has_normal layout.textured ≤ length p.now }
    ensures { result ≡ corners_by p.now layout.has_normal layout.textured m.now matrix }
{
    [
        corner(p, layout.first_word(0), layout, m, matrix),
        corner(p, layout.first_word(1), layout, m, matrix),
        corner(p, layout.first_word(2), layout, m, matrix),
    ]
}
