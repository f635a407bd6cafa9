// A float triangle on the screen, up to its depths: what both float rasterisers of the original
// share. Its corners, its area, the box that is looked at, and its edges along a row.
#![tactic(auto)]

ghost use Rattle.std.specs.Prelude.{◌≡◌, ◌+◌, ◌<◌, ◌≤◌};
ghost use Rattle.screen.specs.Plane.{width, height};
ghost use Rattle.face.specs.Face.{behind_of, inverse_of, point_of, edge_of, min_of, past_of, bounds_of, face_of, setup_of, OnScreen};
ghost use Rattle.face.specs.Pixel.{centre_of, inside_of, mix_of, passes_of};
ghost use Rattle.face.specs.Row.{line_of, on_line, edges_of};

use clip::vertex::ClipVertex;
use screen::bounds::Bounds;

// A number for each corner.
#[derive(Clone, Copy, Debug, PartialEq)]
pub struct Corners {
    pub c0: f32,
    pub c1: f32,
    pub c2: f32,
}

// A place on the screen, in pixels.
#[derive(Clone, Copy, Debug, PartialEq)]
pub struct Point {
    pub x: f32,
    pub y: f32,
}

// What the set-up works out: the corners a, b and c, and 1 / w and the depth of each.
#[derive(Clone, Copy, Debug, PartialEq)]
pub struct Face {
    pub a: Point,
    pub b: Point,
    pub c: Point,
    pub inv_w: Corners,
    pub depth: Corners,
    pub area: f32,
    pub bounds: Bounds,
}

fn is_behind(p: [f32; 4]) -> bool
    ensures { result ≡ behind_of p }
{
    p[3] <= f32::EPSILON
}

fn inverse(p: [f32; 4]) -> f32
    ensures { result ≡ inverse_of p }
{
    1.0 / p[3]
}

// v is 1 / w. `split`: times the side of the screen and then times 0.5, as for textured triangles.
#[tactic(auto, unfolding(crate::specs::Face::point_of))]
fn point_of(split: bool, p: [f32; 4], v: f32) -> Point
    ensures { result ≡ point_of split p v }
{
    let x = p[0] * v + 1.0;
    let y = 1.0 - p[1] * v;
    if split {
        return Point {
            x: x * 320.0 * 0.5,
            y: y * 240.0 * 0.5,
        };
    }
    Point {
        x: x * 160.0,
        y: y * 120.0,
    }
}

#[tactic(auto, unfolding(crate::specs::Face::edge_of))]
fn edge(a: Point, b: Point, x: f32, y: f32) -> f32
    ensures { result ≡ edge_of a b x y }
{
    (x - a.x) * (b.y - a.y) - (y - a.y) * (b.x - a.x)
}

// The first column or row of the box.
fn first(a: f32, b: f32, c: f32) -> usize
    ensures { result ≡ min_of a b c }
{
    let least = ieee::cast::first(a)
        .min(ieee::cast::first(b))
        .min(ieee::cast::first(c));
    least as usize
}

// The first one past it, on a screen whose last is `last`.
fn past(a: f32, b: f32, c: f32, last: u32) -> usize
    requires { last < width }
    ensures { (result ≡ past_of a b c last) × (result ≤ last + 1) }
{
    let greatest = ieee::cast::past(a)
        .max(ieee::cast::past(b))
        .max(ieee::cast::past(c));
    greatest.min(last + 1) as usize
}

#[tactic(auto, unfolding(crate::specs::Face::bounds_of))]
fn bounds_of(a: Point, b: Point, c: Point) -> Bounds
    ensures { (result ≡ bounds_of a b c) × (result.right ≤ width) × (result.bottom ≤ height) }
{
    Bounds {
        left: first(a.x, b.x, c.x),
        right: past(a.x, b.x, c.x, 319),
        top: first(a.y, b.y, c.y),
        bottom: past(a.y, b.y, c.y, 239),
    }
}

#[tactic(auto, unfolding(crate::specs::Face::face_of))]
fn face_of(split: bool, p: [f32; 4], q: [f32; 4], r: [f32; 4]) -> Face
    ensures { (result ≡ face_of split p q r) × (result.bounds.right ≤ width) × (result.bounds.bottom ≤ height) }
{
    let i = inverse(p);
    let j = inverse(q);
    let k = inverse(r);
    let a = point_of(split, p, i);
    let b = point_of(split, q, j);
    let c = point_of(split, r, k);
    let area = edge(a, b, c.x, c.y);
    let bounds = bounds_of(a, b, c);
    Face {
        a,
        b,
        c,
        inv_w: Corners {
            c0: i,
            c1: j,
            c2: k,
        },
        depth: Corners {
            c0: p[2] * i,
            c1: q[2] * j,
            c2: r[2] * k,
        },
        area,
        bounds,
    }
}

// Both rasterisers' set-up: nothing if a corner is behind, or if the area is too small.
#[tactic(auto, unfolding(crate::specs::Face::setup_of))]
pub fn set_up(split: bool, tri: [ClipVertex; 3]) -> Option<Face>
    ensures { (result ≡ setup_of split tri) × OnScreen result }
{
    let p = tri[0].position;
    let q = tri[1].position;
    let r = tri[2].position;
    if is_behind(p) || is_behind(q) || is_behind(r) {
        return None;
    }
    let face = face_of(split, p, q, r);
    if ieee::range::tiny(face.area) {
        return None;
    }
    Some(face)
}

// The middle of a column or a row.
pub fn centre(n: usize) -> f32
    requires { n < width }
    ensures { result ≡ centre_of n }
{
    ieee::number::pixel_float(n) + 0.5
}

// An edge along a row: at px it is (px - x) * rise - base, in the source's order.
#[derive(Clone, Copy, Debug, PartialEq)]
pub struct Line {
    pub x: f32,
    pub rise: f32,
    pub base: f32,
}

fn line_of(a: Point, b: Point, py: f32) -> Line
    ensures { result ≡ line_of a b py }
{
    Line {
        x: a.x,
        rise: b.y - a.y,
        base: (py - a.y) * (b.x - a.x),
    }
}

pub fn at_column(line: Line, px: f32) -> f32
    ensures { result ≡ on_line line px }
{
    (px - line.x) * line.rise - line.base
}

// The three edges along a row, each named after the corner that it faces.
#[derive(Clone, Copy, Debug, PartialEq)]
pub struct Edges {
    pub w0: Line,
    pub w1: Line,
    pub w2: Line,
}

#[tactic(auto, unfolding(crate::specs::Row::edges_of))]
pub fn edges_of(f: Face, y: usize) -> Edges
    requires { y < height }
    ensures { result ≡ edges_of f y }
{
    let py = centre(y);
    Edges {
        w0: line_of(f.b, f.c, py),
        w1: line_of(f.c, f.a, py),
        w2: line_of(f.a, f.b, py),
    }
}

// Are all three edges on the area's side? The area is tested first: tested at each edge, it made
// the compiler do both comparisons of each.
// Stays: with `&&` in each arm large triangles took 2 % longer.
#[tactic(auto, unfolding(crate::specs::Pixel::inside_of))]
pub fn inside(area: f32, w0: f32, w1: f32, w2: f32) -> bool
    ensures { result ≡ inside_of area w0 w1 w2 }
{
    if area > 0.0 {
        if w0 >= 0.0 {
            if w1 >= 0.0 {
                return w2 >= 0.0;
            }
        }
        return false;
    }
    if w0 <= 0.0 {
        if w1 <= 0.0 {
            return w2 <= 0.0;
        }
    }
    false
}

// A sum of three products, left to right.
#[tactic(auto, unfolding(crate::specs::Pixel::mix_of))]
pub fn mix(b: Corners, v: Corners) -> f32
    ensures { result ≡ mix_of b v }
{
    b.c0 * v.c0 + b.c1 * v.c1 + b.c2 * v.c2
}

// Does a depth show over an old one? Every comparison with a NaN fails, so a NaN shows, and so does
// a depth from 0 to 1 over a NaN.
#[tactic(auto, unfolding(crate::specs::Pixel::passes_of))]
pub fn passes(z: f32, old: f32) -> bool
    ensures { result ≡ passes_of z old }
{
    let below = z < 0.0;
    let above = z > 1.0;
    let behind = z >= old;
    !below && !above && !behind
}
