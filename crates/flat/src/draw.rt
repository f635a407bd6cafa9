// A triangle that was not refused, drawn: by rows, within its bounds. The contracts name no bounds,
// since nothing outside them is covered.
ghost use Rattle.std.specs.Prelude.{◌≡◌, true, ◌+◌, ◌*◌, ◌<◌};
ghost use Rattle.screen.specs.Plane.{width, height};
ghost use Rattle.screen.specs.Draw.{pixels};
ghost use Rattle.flat.specs.Row.{edges_of};
ghost use Rattle.flat.specs.Tri.{Placed, weights_of, covers, tri_depths, tri_plane};
ghost use Rattle.flat.specs.Drawing.{turned_of, TriDrawn};

use crate::edge::{Edges, Weights};
use crate::solid::Solid;
use crate::tri::Tri;
use screen::plane::{PIXELS, PLANE_BYTES, VPU_WIDTH};

// A pixel that the triangle covers, with its edges there: it is drawn if it is nearer.
fn cover(
    plane: &mut [u8; PLANE_BYTES],
    depth: &mut [i32; PIXELS],
    s: Solid,
    x: usize,
    y: usize,
    w: Weights,
)
    requires x_lt_width { (x < width) × (y < height) }
    requires y_value { covers s.tri x y ≡ true }
    requires w_value { w ≡ weights_of s.tri x y }
    ensures { TriDrawn s.tri (y * width + x) (y * width + x + 1) depth.old plane.old depth.new plane.new }
{
    let d = crate::edge::weighted(s.area, w, s.tri);
    let index = y * VPU_WIDTH + x;
    let old = depth[index];
    if d < old {
        depth[index] = d;
        screen::plane::write_pixel(plane, x, y, s.tri.color);
    }
}

// One pixel: the first edge that it is beyond settles it.
fn draw_pixel(
    plane: &mut [u8; PLANE_BYTES],
    depth: &mut [i32; PIXELS],
    s: Solid,
    edges: Edges,
    x: usize,
    y: usize,
)
    requires x_lt_width { (x < width) × (y < height) }
    requires edges_value { edges ≡ edges_of s.tri y }
    ensures { TriDrawn s.tri (y * width + x) (y * width + x + 1) depth.old plane.old depth.new plane.new }
{
    let w0 = crate::edge::at_column(edges.w0, x);
    if w0 >= 0 {
        let w1 = crate::edge::at_column(edges.w1, x);
        if w1 >= 0 {
            let w2 = crate::edge::at_column(edges.w2, x);
            if w2 >= 0 {
                cover(plane, depth, s, x, y, Weights { w0, w1, w2 });
            }
        }
    }
}

fn draw_row(plane: &mut [u8; PLANE_BYTES], depth: &mut [i32; PIXELS], s: Solid, y: usize)
    requires { y < height }
    ensures { TriDrawn s.tri (y * width) (y * width + width) depth.old plane.old depth.new plane.new }
{
    let edges = crate::edge::edges_of(s.tri, y);
    for x in s.bounds.left..s.bounds.right {
        draw_pixel(plane, depth, s, edges, x, y);
    }
}

fn draw_rows(plane: &mut [u8; PLANE_BYTES], depth: &mut [i32; PIXELS], s: Solid)
    ensures { TriDrawn s.tri 0 pixels depth.old plane.old depth.new plane.new }
{
    for y in s.bounds.top..s.bounds.bottom {
        draw_row(plane, depth, s, y);
    }
}

// The same triangle, its corners taken the other way round: its area and its edges change sign.
#[tactic(auto, unfolding(crate::specs::Drawing::turned_of))]
fn turned(t: Tri) -> Tri
    ensures { result ≡ turned_of t }
{
    Tri {
        p1: t.p2,
        p2: t.p1,
        ..t
    }
}

// The original tests edges against the sign of the area. Here a triangle of negative area is turned
// first, so that a pixel is inside if no edge is negative.
pub fn draw_tri(plane: &mut [u8; PLANE_BYTES], depth: &mut [i32; PIXELS], t: Tri)
    requires { Placed t }
    ensures depth_after { depth.new ≡ tri_depths t depth.old }
    ensures plane_after { plane.new ≡ tri_plane t depth.old plane.old }
{
    let area = crate::edge::area_of(t);
    if area > 0 {
        draw_rows(plane, depth, Solid::new(t, area));
        return;
    }
    if area < 0 {
        let back = turned(t);
        let area = crate::edge::area_of(back);
        draw_rows(plane, depth, Solid::new(back, area));
    }
}
