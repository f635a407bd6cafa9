// A picture on the heap, and the ways to draw a record's triangle on it.
ghost use Rattle.std.specs.Prelude.{◌≡◌, vec_len};
ghost use Rattle.screen.specs.Plane.{plane_bytes};
ghost use Rattle.screen.specs.Draw.{pixels};

use screen::plane::{PIXELS, PLANE_BYTES, Rgba};
use std::alloc::{AllocError, Global};
use std::{array, fmt};

#[derive(Drop)]
pub struct Picture {
    plane: Vec<u8>,
    depth: Vec<i32>,
    depth_f32: Vec<f32>,
    ghost plane_len: { vec_len plane ≡ plane_bytes },
    ghost depth_len: { vec_len depth ≡ pixels },
    ghost depth_f32_len: { vec_len depth_f32 ≡ pixels },
}

// A record's 52 floats, and the last four, which are a colour.
fn floats(record: &[u8]) -> [f32; 52] {
    array::from_fn(|k| vertex_c::record::float_at(record, k))
}

fn color(record: &[u8]) -> [f32; 4] {
    array::from_fn(|k| vertex_c::record::float_at(record, 48 + k))
}

impl Picture {
    // A cleared picture.
    pub fn new(alloc: Global) -> Result<Picture, AllocError> {
        let mut picture = Picture {
            plane: vec![in alloc; 0; PLANE_BYTES]?,
            depth: vec![in alloc; 0; PIXELS]?,
            depth_f32: vec![in alloc; 0.0; PIXELS]?,
        };
        picture.clear();
        Ok(picture)
    }

    pub fn clear(&mut self) {
        screen::plane::fill(&mut self.plane, Rgba::CLEAR);
        screen::depths::refill(&mut self.depth, &mut self.depth_f32);
    }

    pub fn draw_flat(&mut self, record: &[u8]) {
        let words: [u32; 11] = array::from_fn(|k| vertex_c::record::word_at(record, k));
        triangle_c::triangle_flat(&mut self.plane, &mut self.depth, &words);
    }

    // In the record's colour.
    pub fn draw_plain(&mut self, record: &[u8]) {
        triangle_c::triangle_transformed(
            &mut self.plane,
            &mut self.depth_f32,
            &floats(record),
            &color(record),
        );
    }

    // In the colours of its corners.
    pub fn draw_blended(&mut self, record: &[u8]) {
        triangle_c::triangle_transformed(
            &mut self.plane,
            &mut self.depth_f32,
            &floats(record),
            &[],
        );
    }

    // With the texture, 8 by 8.
    pub fn draw_textured(&mut self, record: &[u8], texels: &[u32; 32], mode: u32) {
        triangle_c::triangle_textured(
            &mut self.plane,
            &mut self.depth_f32,
            &floats(record),
            8,
            8,
            texels,
            mode,
            &color(record),
        );
    }
}

// Its digests.
impl fmt::Display for Picture {
    fn fmt<W: fmt::Write>(&self, f: &mut fmt::Formatter<W>) -> fmt::Result {
        let plane = digest::bytes(digest::START, &self.plane);
        let depth = digest::ints(digest::START, &self.depth);
        let depth_f32 = digest::floats(digest::START, &self.depth_f32);
        write!(f, " {plane:016x} {depth:016x} {depth_f32:016x}")
    }
}
