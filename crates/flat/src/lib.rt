// Flat triangles, command 12: section 4 of docs/RULES.md; `draw_flat_triangle` of the original.
// What the words say and whether they are refused (`tri`) is apart from painting (`draw`).
#![tactic(auto)]

ghost use Rattle.std.specs.Prelude.{◌≡◌, length};
ghost use Rattle.flat.specs.Words.{flat_verdict, flat_depths, flat_plane};

use screen::plane::{PIXELS, PLANE_BYTES};
use verdict::Verdict;

pub mod bounds;
pub mod draw;
pub mod edge;
pub mod solid;
pub mod tri;

pub fn draw_flat_triangle(
    plane: &mut [u8; PLANE_BYTES],
    depth: &mut [i32; PIXELS],
    p: &[u32],
) -> Verdict
    requires { length p.now ≡ 11 }
    ensures value { result ≡ flat_verdict p.now }
    ensures depth_after { depth.new ≡ flat_depths p.now depth.old }
    ensures plane_after { plane.new ≡ flat_plane p.now depth.old plane.old }
{
    tri::verdict_of(p)?;
    draw::draw_tri(plane, depth, tri::tri_of(p));
    Ok(())
}
