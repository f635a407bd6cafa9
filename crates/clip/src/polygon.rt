// A polygon goes by value: 28 vertices, of which the first `count` are its own.
ghost use Rattle.std.specs.Prelude.{◌≡◌, ◌-◌, ◌≤◌, [], ◌∷◌};
ghost use Rattle.clip.specs.Polygons.{clip, clip_all, next_cut, all_inside};
ghost use Rattle.clip.specs.Vertices.{full, room, cuttable, of, Holds};

use crate::vertex::{ClipVertex, clip_distance, mix_vertex};

// What six planes can make of three vertices, however the distances round.
pub const ROOM: usize = 28;

// Stays: the machine's memory is fixed, and the kit's `ArrayVec` is no plainer: it is not Copy, and its
// `new` wants a vertex to begin with.
#[derive(Clone, Copy)]
pub struct Polygon {
    pub vertices: [ClipVertex; ROOM],
    pub count: usize,
}

// The first plane from `plane` on, before `stop`, that the vertex is outside of, or `stop`.
fn first_out(vertex: ClipVertex, plane: usize, stop: usize) -> usize
    requires { plane ≤ stop }
    ensures { result ≡ next_cut full (stop - plane) plane (vertex ∷ []) }
{
    for p in plane..stop {
        let inside = clip_distance(vertex, p) >= 0.0;
        if !inside {
            return p;
        }
    }
    stop
}

// The first of the six planes that cuts something off the triangle, or 6.
fn first_cut(triangle: [ClipVertex; 3]) -> usize
    ensures { result ≡ next_cut full 6 0 triangle }
{
    let [a, b, c] = triangle;
    first_out(c, 0, first_out(b, 0, first_out(a, 0, 6)))
}

// Is the whole triangle inside? Then it is drawn as it is, and its caller needs no polygon.
pub fn all_inside(triangle: [ClipVertex; 3]) -> bool
    ensures { result ≡ all_inside full triangle }
{
    first_cut(triangle) == 6
}

// The first plane from `plane` on that cuts something off the polygon, or 6.
fn next_cut(polygon: Polygon, plane: usize) -> usize
    requires count_le_room { polygon.count ≤ room }
    requires plane_bound { plane ≤ 6 }
    ensures { result ≡ next_cut full (6 - plane) plane (of polygon) }
{
    let mut stop: usize = 6;
    for vertex in &polygon.vertices[..polygon.count] {
        stop = first_out(*vertex, plane, stop);
    }
    stop
}

// The polygon cut at one plane. Nineteen vertices become 28 at most.
pub fn clip_polygon(polygon: Polygon, plane: usize) -> Polygon
    requires { polygon.count ≤ cuttable }
    ensures { Holds result (clip full plane (of polygon)) }
{
    let count = polygon.count;
    if count == 0 {
        return polygon;
    }
    let mut previous = polygon.vertices[count - 1];
    let mut previous_distance = clip_distance(previous, plane);
    let mut output = polygon.vertices;
    let mut n: usize = 0;
    for vertex in &polygon.vertices[..count] {
        let current = *vertex;
        let current_distance = clip_distance(current, plane);
        let previous_inside = previous_distance >= 0.0;
        let current_inside = current_distance >= 0.0;
        if previous_inside != current_inside {
            let t = previous_distance / (previous_distance - current_distance);
            output[n] = mix_vertex(t, previous, current);
            n += 1;
        }
        if current_inside {
            output[n] = current;
            n += 1;
        }
        previous = current;
        previous_distance = current_distance;
    }
    Polygon {
        vertices: output,
        count: n,
    }
}

// The triangle cut at the six planes: no vertices as soon as a plane leaves fewer than three.
pub fn clip_all(triangle: [ClipVertex; 3]) -> Polygon
    ensures { Holds result (clip_all full triangle) }
{
    let mut vertices = [triangle[0]; ROOM];
    vertices[..3].copy_from_slice(&triangle);
    let mut polygon = Polygon { vertices, count: 3 };
    let mut plane = first_cut(triangle);
    while plane < 6 {
        polygon = clip_polygon(polygon, plane);
        if polygon.count < 3 {
            polygon.count = 0;
            return polygon;
        }
        plane = next_cut(polygon, plane + 1);
    }
    polygon
}
