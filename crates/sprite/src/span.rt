// The columns, or the rows, of the screen that a sprite reaches.
ghost use Rattle.std.specs.Prelude.{◌≤◌};
ghost use Rattle.laws.specs.Within.{Within};
ghost use Rattle.flat.specs.Edge.{reach};
ghost use Rattle.screen.specs.Plane.{width};
ghost use Rattle.sprite.specs.Spans.{Reached};

// From `start` to `end`, where `start` is `skip` columns into the sprite.
#[derive(Clone, Copy, Debug, PartialEq, Eq)]
pub struct Span {
    pub start: usize,
    pub end: usize,
    pub skip: usize,
}

// `size` columns from `at` on, cut to those from 0 to n.
pub fn span_of(at: i64, size: usize, n: usize) -> Span
    requires within { Within reach at }
    requires size_bound { size ≤ 1024 }
    requires n_le_width { n ≤ width }
    ensures { Reached at size n result }
{
    let start = at.clamp(0, n as i64);
    Span {
        start: start as usize,
        end: (at + size as i64).clamp(start, n as i64) as usize,
        skip: (0 - at).clamp(0, size as i64) as usize,
    }
}
