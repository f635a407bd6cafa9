// A triangle that is set up, painted by rows within its box. One pair of loops serves every ink.
ghost use Rattle.std.specs.Prelude.{◌≡◌, ◌+◌, ◌*◌, ◌<◌, ◌≤◌, true, length};
ghost use Rattle.laws.specs.Cells.{map_range};
ghost use Rattle.screen.specs.Plane.{width, height};
ghost use Rattle.screen.specs.Draw.{pixels};
ghost use Rattle.face.specs.Face.{OnScreen};
ghost use Rattle.face.specs.Pixel.{covers, weight0, weight1, weight2};
ghost use Rattle.raster.specs.Ink.{Stored};
ghost use Rattle.face.specs.Row.{edges_of};
ghost use Rattle.raster.specs.Steps.{FaceDrawn, Ready, Inside};
ghost use Rattle.raster.specs.Raster.{inked, depths_after, plane_after};

use crate::ink::Ink;
use face::{Corners, Edges, Face};
use screen::plane::{PIXELS, PLANE_BYTES, Rgba, VPU_WIDTH};

fn put(plane: &mut [u8; PLANE_BYTES], x: usize, y: usize, shade: Option<Rgba>)
    requires x_lt_width { (x < width) × (y < height) }
    ensures { plane.new ≡ map_range (inked shade) ((y * width + x) * 4) ((y * width + x) * 4 + 4) plane.old }
{
    if let Some(rgba) = shade {
        screen::plane::write_pixel(plane, x, y, rgba);
    }
}

// A pixel that the triangle covers, with its edges there: it is drawn if its depth passes.
fn cover(
    plane: &mut [u8; PLANE_BYTES],
    depth: &mut [f32; PIXELS],
    texels: &[u32],
    ink: Ink,
    f: Face,
    x: usize,
    y: usize,
    w0: f32,
    w1: f32,
    w2: f32,
)
    requires ready { Ready ink f (length texels.now) }
    requires inside { Inside f x y }
    requires y_value { covers f x y ≡ true }
    requires w0_value { (w0 ≡ weight0 f x y) × (w1 ≡ weight1 f x y) × (w2 ≡ weight2 f x y) }
    ensures { FaceDrawn texels.now ink f (y * width + x) (y * width + x + 1) depth.old plane.old depth.new plane.new }
{
    let bary = Corners {
        c0: w0 / f.area,
        c1: w1 / f.area,
        c2: w2 / f.area,
    };
    let z = face::mix(bary, f.depth);
    let index = y * VPU_WIDTH + x;
    if face::passes(z, depth[index]) {
        depth[index] = z;
        put(
            plane,
            x,
            y,
            crate::ink::shade_at(texels, ink, bary, f.inv_w),
        );
    }
}

// One pixel, if it is inside all three edges.
fn draw_pixel(
    plane: &mut [u8; PLANE_BYTES],
    depth: &mut [f32; PIXELS],
    texels: &[u32],
    ink: Ink,
    f: Face,
    edges: Edges,
    x: usize,
    y: usize,
)
    requires ready { Ready ink f (length texels.now) }
    requires inside { Inside f x y }
    requires edges_value { edges ≡ edges_of f y }
    ensures { FaceDrawn texels.now ink f (y * width + x) (y * width + x + 1) depth.old plane.old depth.new plane.new }
{
    let px = face::centre(x);
    let w0 = face::at_column(edges.w0, px);
    let w1 = face::at_column(edges.w1, px);
    let w2 = face::at_column(edges.w2, px);
    if face::inside(f.area, w0, w1, w2) {
        cover(plane, depth, texels, ink, f, x, y, w0, w1, w2);
    }
}

fn draw_row(
    plane: &mut [u8; PLANE_BYTES],
    depth: &mut [f32; PIXELS],
    texels: &[u32],
    ink: Ink,
    f: Face,
    y: usize,
)
    requires ready { Ready ink f (length texels.now) }
    requires top_le_y { (f.bounds.top ≤ y) × (y < f.bounds.bottom) }
    ensures { FaceDrawn texels.now ink f (y * width) (y * width + width) depth.old plane.old depth.new plane.new }
{
    let edges = face::edges_of(f, y);
    for x in f.bounds.left..f.bounds.right {
        draw_pixel(plane, depth, texels, ink, f, edges, x, y);
    }
}

fn draw_rows(
    plane: &mut [u8; PLANE_BYTES],
    depth: &mut [f32; PIXELS],
    texels: &[u32],
    ink: Ink,
    f: Face,
)
    requires { Ready ink f (length texels.now) }
    ensures { FaceDrawn texels.now ink f 0 pixels depth.old plane.old depth.new plane.new }
{
    for y in f.bounds.top..f.bounds.bottom {
        draw_row(plane, depth, texels, ink, f, y);
    }
}

pub fn draw(
    plane: &mut [u8; PLANE_BYTES],
    depth: &mut [f32; PIXELS],
    texels: &[u32],
    ink: Ink,
    setup: Option<Face>,
)
    requires stored { Stored ink (length texels.now) }
    requires on_screen { OnScreen setup }
    ensures depth_after { depth.new ≡ depths_after setup depth.old }
    ensures plane_after { plane.new ≡ plane_after texels.now ink setup depth.old plane.old }
{
    if let Some(f) = setup {
        draw_rows(plane, depth, texels, ink, f);
    }
}
