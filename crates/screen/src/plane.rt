// The plane: a pixel written, a pixel read, and every pixel filled.
ghost use Rattle.std.specs.Prelude.{◌≡◌, ◌+◌, ◌*◌, ◌<◌, ◌≤◌, length};
ghost use Rattle.laws.specs.Cells.{map_at, map_range};
ghost use Rattle.screen.specs.Plane.{width, height, row_bytes, plane_bytes, paint, echo, answered, pixel_of};

pub const VPU_WIDTH: usize = 320;

pub const VPU_HEIGHT: usize = 240;

// How many pixels the screen has, and so how many depths of each form.
pub const PIXELS: usize = VPU_WIDTH * VPU_HEIGHT;

pub const PLANE_BYTES: usize = PIXELS * 4;

const ROW_BYTES: usize = VPU_WIDTH * 4;

#[derive(Clone, Copy, Debug, PartialEq, Eq)]
pub struct Rgba {
    pub r: u8,
    pub g: u8,
    pub b: u8,
    pub a: u8,
}

impl Rgba {
    // What is read off the screen.
    pub const CLEAR: Rgba = Rgba {
        r: 0,
        g: 0,
        b: 0,
        a: 0,
    };
}

// The lent plane has a wrong length.
#[derive(Clone, Copy, Debug, PartialEq, Eq)]
pub struct WrongLength;

#[tactic(auto, unfolding(crate::specs::Plane::pixel_of))]
pub fn pixel(plane: &[u8], x: usize, y: usize) -> Result<Rgba, WrongLength>
    ensures { answered result ≡ pixel_of plane.now x y }
{
    if plane.len() != PLANE_BYTES {
        return Err(WrongLength);
    }
    if x >= VPU_WIDTH || y >= VPU_HEIGHT {
        return Ok(Rgba::CLEAR);
    }
    let index = (y * VPU_WIDTH + x) * 4;
    Ok(Rgba {
        r: plane[index],
        g: plane[index + 1],
        b: plane[index + 2],
        a: plane[index + 3],
    })
}

// Red, green and blue are dithered, alpha is not. The original leaves a pixel off the screen alone.
// Here a caller shows that the pixel is on it.
pub fn write_pixel(plane: &mut [u8], x: usize, y: usize, rgba: Rgba)
    requires plane_len { length plane.old ≡ plane_bytes }
    requires x_lt_width { x < width }
    requires y_lt_height { y < height }
    ensures { plane.new ≡ map_range (paint rgba) ((y * width + x) * 4) ((y * width + x) * 4 + 4) plane.old }
{
    let index = (y * VPU_WIDTH + x) * 4;
    let t = crate::dither::threshold(x, y);
    plane[index] = crate::dither::rgb555_dither(rgba.r, t);
    plane[index + 1] = crate::dither::rgb555_dither(rgba.g, t);
    plane[index + 2] = crate::dither::rgb555_dither(rgba.b, t);
    plane[index + 3] = rgba.a;
}

// Repeats the `size` bytes before `start`, up to `end`.
fn repeat_before(plane: &mut [u8], size: usize, start: usize, end: usize)
    requires size_nonzero { 0 < size }
    requires size_le_start { size ≤ start }
    requires start_le_end { start ≤ end }
    requires end_in_bounds { end ≤ length plane.old }
    ensures { plane.new ≡ map_range (echo plane.old size start) start end plane.old }
{
    for i in start..end {
        plane[i] = plane[i - size];
    }
}

// One row: the pattern repeats every four pixels.
fn fill_row(plane: &mut [u8], y: usize, rgba: Rgba)
    requires plane_len { length plane.old ≡ plane_bytes }
    requires y_lt_height { y < height }
    ensures { plane.new ≡ map_range (paint rgba) (y * row_bytes) (y * row_bytes + row_bytes) plane.old }
{
    for x in 0..4 {
        write_pixel(plane, x, y, rgba);
    }
    let row = y * ROW_BYTES;
    repeat_before(plane, 16, row + 16, row + ROW_BYTES);
}

// Every pixel: the rows repeat every four. The sixteen pixels of one tile are worked out, and
// the rest is copied.
pub fn fill(plane: &mut [u8], rgba: Rgba)
    requires { length plane.old ≡ plane_bytes }
    ensures { plane.new ≡ map_at (paint rgba) plane.old }
{
    for y in 0..4 {
        fill_row(plane, y, rgba);
    }
    repeat_before(plane, ROW_BYTES * 4, ROW_BYTES * 4, PLANE_BYTES);
}
