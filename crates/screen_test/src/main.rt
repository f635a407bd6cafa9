// Replays what the original's screen does: all dither outcomes, and the pixels that fills leave.
// Standard input has the colours, each as a word with red highest, the lowest byte first.
#![tactic(auto)]

ghost use Rattle.std.specs.Prelude.{◌≡◌, length};
ghost use Rattle.screen.specs.Plane.{plane_bytes};

use screen::plane::{PIXELS, PLANE_BYTES, Rgba, WrongLength, pixel};
use std::io;

// The bytes of 24 colours.
const COLOUR_BYTES: usize = 96;

// The pixels that are shown after each fill. The last two are off the screen.
const SHOWN: [(usize, usize); 8] = [
    (0, 0),
    (319, 0),
    (0, 239),
    (319, 239),
    (2, 3),
    (161, 77),
    (320, 0),
    (0, 240),
];

// One line: every channel value at one place of the pattern.
fn dither_line(rt: &HostRuntime, x: usize, y: usize) -> io::Result<()> {
    let t = screen::dither::threshold(x, y);
    for channel in 0..=255 {
        print!(rt; "{:02x}", screen::dither::rgb555_dither(channel, t))?;
    }
    println!(rt; "")
}

fn dither_lines(rt: &HostRuntime) -> io::Result<()> {
    for y in 0..4 {
        for x in 0..4 {
            dither_line(rt, x, y)?;
        }
    }
    Ok(())
}

fn show_pixel(rt: &HostRuntime, plane: &[u8], x: usize, y: usize) -> io::Result<()> {
    match pixel(plane, x, y) {
        Ok(Rgba { r, g, b, a }) => print!(rt; " {r:02x}{g:02x}{b:02x}{a:02x}"),
        Err(WrongLength) => print!(rt; " wrong length"),
    }
}

// One line: the plane filled with a colour.
fn fill_line(rt: &HostRuntime, plane: &mut [u8], rgba: Rgba) -> io::Result<()>
    requires { length plane.old ≡ plane_bytes }
{
    screen::plane::fill(plane, rgba);
    print!(rt; "{:016x}", digest::bytes(digest::START, plane))?;
    for (x, y) in SHOWN {
        show_pixel(rt, plane, x, y)?;
    }
    println!(rt; "")
}

fn fill_lines(rt: &HostRuntime, plane: &mut [u8], colours: &[u8]) -> io::Result<()>
    requires { length plane.old ≡ plane_bytes }
{
    for word in colours.chunks_exact(4) {
        let rgba = Rgba {
            r: word[3],
            g: word[2],
            b: word[1],
            a: word[0],
        };
        fill_line(rt, plane, rgba)?;
    }
    print!(rt; "a plane of 96 bytes:")?;
    show_pixel(rt, colours, 0, 0)?;
    println!(rt; "")
}

fn depth_line(rt: &HostRuntime, depth: &mut [i32], depth_f32: &mut [f32]) -> io::Result<()> {
    screen::depths::refill(depth, depth_f32);
    println!(rt;
        "{:016x} {:016x}",
        digest::ints(digest::START, depth),
        digest::floats(digest::START, depth_f32)
    )
}

fn main(rt: HostRuntime) -> io::Result<()> {
    let alloc = rt.alloc();
    let mut colours = [0u8; COLOUR_BYTES];
    let mut plane = vec![in alloc; 0u8; PLANE_BYTES]?;
    let mut depth = vec![in alloc; 0i32; PIXELS]?;
    let mut depth_f32 = vec![in alloc; 0f32; PIXELS]?;
    console::read_full(&mut rt.stdin(), &mut colours)?;
    dither_lines(&rt)?;
    fill_lines(&rt, &mut plane, &colours)?;
    depth_line(&rt, &mut depth, &mut depth_f32)
}
