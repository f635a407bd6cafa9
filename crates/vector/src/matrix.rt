// The three matrices of the machine are in one array of 48 cells, row by row.
ghost use Rattle.std.specs.Prelude.{◌≡◌, ◌*◌, ◌<◌, ◌≤◌};
ghost use Rattle.vector.specs.Matrices.{row_of, cell_of, cross_of, transform_of, multiply_of};

#[derive(Clone, Copy, Debug, PartialEq)]
pub struct Matrix {
    pub cells: [f32; 16],
}

// The row that begins at cell p, times v.
fn row(m: &[f32; 48], p: usize, v: [f32; 4]) -> f32
    requires { p ≤ 44 }
    ensures { result ≡ row_of m.now p v }
{
    m[p] * v[0] + m[p + 1] * v[1] + m[p + 2] * v[2] + m[p + 3] * v[3]
}

// Matrix `number` of the three, times a position.
pub fn transform_matrix(m: &[f32; 48], number: usize, position: [f32; 4]) -> [f32; 4]
    requires { number < 3 }
    ensures { result ≡ transform_of m.now (number * 16) position }
{
    let p = number * 16;
    [
        row(m, p, position),
        row(m, p + 4, position),
        row(m, p + 8, position),
        row(m, p + 12, position),
    ]
}

// The row that begins at cell p, times the column that begins at cell q.
fn cell(m: &[f32; 48], p: usize, q: usize) -> f32
    requires p_bound { p ≤ 44 }
    requires q_bound { q ≤ 35 }
    ensures { result ≡ cell_of m.now p q }
{
    m[p] * m[q] + m[p + 1] * m[q + 4] + m[p + 2] * m[q + 8] + m[p + 3] * m[q + 12]
}

// The row that begins at cell p, times the matrix that begins at cell q.
fn cross(m: &[f32; 48], p: usize, q: usize) -> [f32; 4]
    requires p_bound { p ≤ 44 }
    requires q_bound { q ≤ 32 }
    ensures { result ≡ cross_of m.now p q }
{
    [
        cell(m, p, q),
        cell(m, p, q + 1),
        cell(m, p, q + 2),
        cell(m, p, q + 3),
    ]
}

// Matrix a of the three, times matrix b.
pub fn multiply_matrix(m: &[f32; 48], a: usize, b: usize) -> Matrix
    requires a_bound { a < 3 }
    requires b_bound { b < 3 }
    ensures { result ≡ multiply_of m.now (a * 16) (b * 16) }
{
    let p = a * 16;
    let q = b * 16;
    let s = cross(m, p, q);
    let t = cross(m, p + 4, q);
    let u = cross(m, p + 8, q);
    let v = cross(m, p + 12, q);
    Matrix {
        cells: [
            s[0], s[1], s[2], s[3], t[0], t[1], t[2], t[3], u[0], u[1], u[2], u[3], v[0], v[1],
            v[2], v[3],
        ],
    }
}
