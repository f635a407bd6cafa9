// A box of the screen: the columns from `left` up to `right`, the rows from `top` up to `bottom`.

// The original's `min_x`, `max_x + 1`, `min_y` and `max_y + 1`.
#[derive(Clone, Copy, Debug, PartialEq, Eq)]
pub struct Bounds {
    pub left: usize,
    pub right: usize,
    pub top: usize,
    pub bottom: usize,
}
