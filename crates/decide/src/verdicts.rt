// What the checks of the float draws come to, in the original's order. Each is made only if those
// before it find nothing.
ghost use Rattle.std.specs.Prelude.{◌≡◌, true, false, [], ◌<◌, length};
ghost use Rattle.payload.specs.Words.{passed};
ghost use Rattle.decide.specs.Corners.{words_of, corners_of, normal_matrix_of};
ghost use Rattle.decide.specs.Corners as corners-of;
ghost use Rattle.decide.specs.Verdicts.{reached_of, each_of, inputs_of, plain_vertex, transformed_verdict, textured_by, checked_verdict};

use crate::corner::{Layout, NO_MATRIX, corner, corners, normal_matrix};
use clip::vertex::ClipVertex;
use ieee::bits::all_finite;
use payload::finite_from;
use vector::normal::Matrix3;
use verdict::{Reason, Refused, Verdict, not_invertible};

// A transformed position that is not finite points at its vertex's first word.
#[tactic(auto, unfolding(crate::specs::Verdicts::finite4))]
fn reached(v: ClipVertex, o: usize) -> Verdict
    requires { o < 4294967296 }
    ensures { result ≡ reached_of v o }
{
    if all_finite(&v.position) {
        return Ok(());
    }
    Err(Refused {
        reason: Reason::NotFinite,
        index: o as u32,
    })
}

// The words before each vertex's colour.
#[tactic(auto, unfolding(crate::specs::Verdicts::inputs_of))]
fn inputs(p: &[u32], layout: Layout) -> Verdict
    requires { length p.now ≡ words_of layout.has_normal layout.textured }
    ensures { result ≡ inputs_of p.now layout.has_normal layout.textured }
{
    for i in 0..3 {
        finite_from(p, layout.first_word(i), layout.color_at())?;
    }
    Ok(())
}

// 14 and 16 test the transformed positions, after all words.
fn positions(layout: Layout, tri: [ClipVertex; 3]) -> Verdict
    ensures { result ≡ each_of (λ i. reached_of (corners-of.corner tri i) (corners-of.first_of layout.has_normal layout.textured i)) }
{
    for (i, v) in tri.iter().enumerate() {
        reached(*v, layout.first_word(i))?;
    }
    Ok(())
}

// For each vertex 18 tests the transformed position, then the texture coordinates.
#[tactic(auto, unfolding(crate::specs::Verdicts::plain_vertex))]
fn plain_vertex(p: &[u32], v: ClipVertex, o: usize) -> Verdict
    requires p_len { length p.now ≡ 20 }
    requires o_bound { o < 15 }
    ensures { result ≡ plain_vertex p.now v o }
{
    reached(v, o)?;
    finite_from(p, o + 3, 2)
}

// 14, and with normals 16: the corners that are to be lit and painted.
#[tactic(auto, unfolding(crate::specs::Verdicts::transformed_verdict, crate::specs::Verdicts::transformed_by, crate::specs::Corners::corners_of))]
pub fn transformed(p: &[u32], has_normal: bool, m: &[f32; 48]) -> Verdict<[ClipVertex; 3]>
    requires { length p.now ≡ words_of has_normal false }
    ensures { result ≡ passed (transformed_verdict p.now has_normal m.now) (corners_of p.now has_normal false m.now) }
{
    let layout = Layout {
        has_normal,
        textured: false,
    };
    let matrix = normal_matrix(m, has_normal).ok_or(not_invertible())?;
    inputs(p, layout)?;
    let tri = corners(p, layout, m, matrix);
    positions(layout, tri)?;
    Ok(tri)
}

const LIT: Layout = Layout {
    has_normal: true,
    textured: true,
};

// 19 tests the words as they come, and no transformed position: no corner is needed for its
// verdict. The matrix for normals is handed in: the records of a model share one.
#[tactic(auto, unfolding(crate::specs::Verdicts::textured_by))]
pub fn lit(p: &[u32], inverse: Option<Matrix3>) -> Verdict
    requires { length p.now ≡ 29 }
    ensures { result ≡ textured_by p.now true inverse [] }
{
    inverse.ok_or(not_invertible())?;
    inputs(p, LIT)
}

const PLAIN: Layout = Layout {
    has_normal: false,
    textured: true,
};

// 18. A corner is worked out only once those before it have passed.
#[tactic(auto, unfolding(crate::specs::Verdicts::checked_verdict, crate::specs::Verdicts::textured_by, crate::specs::Verdicts::plain_of, crate::specs::Corners::corners_of, crate::specs::Corners::corners_by, crate::specs::Corners::normal_matrix_of))]
fn plain(p: &[u32], m: &[f32; 48]) -> Verdict<[ClipVertex; 3]>
    requires { length p.now ≡ 20 }
    ensures { result ≡ passed (checked_verdict p.now false m.now) (corners_of p.now false true m.now) }
{
    let v0 = corner(p, 2, PLAIN, m, NO_MATRIX);
    plain_vertex(p, v0, 2)?;
    let v1 = corner(p, 8, PLAIN, m, NO_MATRIX);
    plain_vertex(p, v1, 8)?;
    let v2 = corner(p, 14, PLAIN, m, NO_MATRIX);
    plain_vertex(p, v2, 14)?;
    Ok([v0, v1, v2])
}

// 18, and with normals 19, whose mode is in range and whose texture is held.
#[tactic(auto, unfolding(crate::specs::Verdicts::checked_verdict, crate::specs::Verdicts::textured_by, crate::specs::Corners::corners_of))]
pub fn textured(
    p: &[u32],
    has_normal: bool,
    m: &[f32; 48],
    inverse: Option<Matrix3>,
) -> Verdict<[ClipVertex; 3]>
    requires p_len { length p.now ≡ words_of has_normal true }
    requires inverse_value { inverse ≡ normal_matrix_of m.now has_normal }
    ensures { result ≡ passed (checked_verdict p.now has_normal m.now) (corners_of p.now has_normal true m.now) }
{
    if has_normal {
        lit(p, inverse)?;
        return Ok(corners(p, LIT, m, inverse.unwrap_or(NO_MATRIX)));
    }
    plain(p, m)
}
