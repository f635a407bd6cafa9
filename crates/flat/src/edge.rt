// Edges: the original's `edge`, what a row keeps of one, and what three of them say about a pixel.
ghost use Rattle.std.specs.Prelude.{◌≡◌, ◌<◌, pos};
ghost use Rattle.screen.specs.Plane.{width, height};
ghost use Rattle.flat.specs.Edge.{Near, Weighed, edge_of, weighted_of};
ghost use Rattle.flat.specs.Row.{InRow, line_of, on_line, edges_of};
ghost use Rattle.flat.specs.Tri.{Placed, area_of};

use crate::tri::{Corner, Tri};

// The edge from a to b, at p.
fn edge(a: Corner, b: Corner, p: Corner) -> i64
    requires { Near a.x a.y b.x b.y p.x p.y }
    ensures { result ≡ edge_of a.x a.y b.x b.y p.x p.y }
{
    (p.x - a.x) * (b.y - a.y) - (p.y - a.y) * (b.x - a.x)
}

#[tactic(auto, unfolding(crate::specs::Tri::area_of))]
pub fn area_of(t: Tri) -> i64
    requires { Placed t }
    ensures { result ≡ area_of t }
{
    edge(t.p0, t.p1, t.p2)
}

// An edge along a row: at the column x it is x * rise - base.
#[derive(Clone, Copy, Debug, PartialEq, Eq)]
pub struct Line {
    pub rise: i64,
    pub base: i64,
}

fn line_of(a: Corner, b: Corner, py: i64) -> Line
    requires { Near a.x a.y b.x b.y py py }
    ensures { result ≡ line_of a.x a.y b.x b.y py }
{
    Line {
        rise: b.y - a.y,
        base: (b.y - a.y) * a.x + (py - a.y) * (b.x - a.x),
    }
}

#[tactic(auto, unfolding(crate::specs::Row::on_line))]
pub fn at_column(line: Line, x: usize) -> i64
    requires in_row { InRow line }
    requires x_lt_width { x < width }
    ensures { result ≡ on_line line (pos x) }
{
    (x as i64) * line.rise - line.base
}

// The three edges at a pixel, each named after the corner that it faces.
#[derive(Clone, Copy, Debug, PartialEq, Eq)]
pub struct Weights {
    pub w0: i64,
    pub w1: i64,
    pub w2: i64,
}

// The same along a row.
#[derive(Clone, Copy, Debug, PartialEq, Eq)]
pub struct Edges {
    pub w0: Line,
    pub w1: Line,
    pub w2: Line,
}

#[tactic(auto, unfolding(crate::specs::Row::edges_of))]
pub fn edges_of(t: Tri, y: usize) -> Edges
    requires placed { Placed t }
    requires y_lt_height { y < height }
    ensures { result ≡ edges_of t y }
{
    let py = y as i64;
    Edges {
        w0: line_of(t.p1, t.p2, py),
        w1: line_of(t.p2, t.p0, py),
        w2: line_of(t.p0, t.p1, py),
    }
}

// The depth of a triangle of this area where its edges are these.
pub fn weighted(area: i64, w: Weights, t: Tri) -> i32
    requires { Weighed area w.w0 w.w1 w.w2 t.p0.z t.p1.z t.p2.z }
    ensures { result ≡ weighted_of area w.w0 w.w1 w.w2 t.p0.z t.p1.z t.p2.z }
{
    ((w.w0 * t.p0.z + w.w1 * t.p1.z + w.w2 * t.p2.z) / area) as i32
}
