// Replays what the original makes of triangles. Standard input is words, the lowest byte first: 32
// of a texture of 8 by 8, then 2,000 records of 11 for flat triangles, then 2,000 of 52 floats:
// three vertices of 16 and a colour. The float triangles are drawn in each of five ways. For every
// 50 triangles, drawn on cleared buffers, it prints the digests of the plane and of both depths.
#![tactic(auto)]

mod picture;

ghost use Rattle.std.specs.Prelude.{◌<◌};

use picture::Picture;
use std::{array, io};

// How many triangles a line is about.
const LINE: usize = 50;

const TEXTURE_BYTES: usize = 128;

// The bytes of a record, and of all of them.
const FLAT: usize = 44;

const FLATS: usize = 88000;

const SHAPE: usize = 208;

const SHAPES: usize = 416000;

// All the records of a section, by one way to draw.
fn lines<F: Fn(&mut Picture, &[u8])>(
    rt: &impl Print,
    picture: &mut Picture,
    name: &str,
    section: &[u8],
    size: usize,
    draw: F,
) -> io::Result<()>
    requires nonempty { 0 < size }
    requires callable { F.IsAlwaysCallable draw }
{
    for (i, record) in section.chunks_exact(size).enumerate() {
        draw(picture, record);
        if i % LINE == LINE - 1 {
            println!(rt; "{name}{picture}")?;
            picture.clear();
        }
    }
    Ok(())
}

fn main(rt: HostRuntime) -> io::Result<()> {
    let alloc = rt.alloc();
    let mut texture = [0; TEXTURE_BYTES];
    let mut flats = vec![in alloc; 0; FLATS]?;
    let mut shapes = vec![in alloc; 0; SHAPES]?;
    let mut input = rt.stdin();
    console::read_full(&mut input, &mut texture)?;
    console::read_full(&mut input, &mut flats)?;
    console::read_full(&mut input, &mut shapes)?;
    let texels: [u32; 32] = array::from_fn(|k| vertex_c::record::word_at(&texture, k));
    let mut picture = Picture::new(alloc)?;
    lines(&rt, &mut picture, "flat", &flats, FLAT, |p, record| {
        p.draw_flat(record);
    })?;
    lines(
        &rt,
        &mut picture,
        "transformed-flat",
        &shapes,
        SHAPE,
        |p, record| {
            p.draw_plain(record);
        },
    )?;
    lines(
        &rt,
        &mut picture,
        "transformed",
        &shapes,
        SHAPE,
        |p, record| {
            p.draw_blended(record);
        },
    )?;
    for mode in 0..3 {
        let name = format!(in alloc; "textured-{mode}")?;
        lines(&rt, &mut picture, &name, &shapes, SHAPE, |p, record| {
            p.draw_textured(record, &texels, mode);
        })?;
    }
    Ok(())
}
