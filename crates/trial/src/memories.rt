// The memories that calls are lent, marks in them that no command leaves, and whether each still has
// its marks everywhere.
ghost use Rattle.std.specs.Prelude.{◌≡◌, ◌+◌, ◌==◌, ◌&&◌, true, get_or, replicate, negsuc, IfOk, vec_len, from_bits, to_bits};
ghost use Rattle.std.specs.List.{list_all};
ghost use Rattle.std.specs.Float.{binary32};
ghost use Rattle.trial.specs.Memories.{all_nats, all_ints, all_floats};

use ieee::bits::{bits_of, float_of};
use screen::plane::{PIXELS, PLANE_BYTES};
use state::MAX_COMMAND_WORDS;
use std::alloc::{AllocError, Global};

const TEXTURE_WORDS: usize = 1024;

const MODEL_WORDS: usize = 524291;

// How much of each a call is lent, if its line says nothing else.
pub const LENT: [usize; 6] = [
    PLANE_BYTES,
    PIXELS,
    PIXELS,
    MAX_COMMAND_WORDS as usize,
    TEXTURE_WORDS,
    MODEL_WORDS,
];

// What plane and depths have everywhere. The float is given by its bits.
#[derive(Clone, Copy, Debug, PartialEq, Eq)]
pub struct Fill {
    pub byte: u8,
    pub int: i32,
    pub float: u32,
}

impl Fill {
    pub const MARKS: Fill = Fill {
        byte: 90,
        int: -5,
        float: 0x3e80_0000,
    };

    // What a clear to white leaves.
    pub const WHITE: Fill = Fill {
        byte: 255,
        int: 2147483647,
        float: 0x3f80_0000,
    };

    pub fn fills(self, plane: &[u8], depth: &[i32], depth_f32: &[f32]) -> bool
        ensures { result ≡ all_nats self.byte plane.now && all_ints self.int depth.now && all_floats self.float depth_f32.now }
    {
        all(plane, self.byte) && all(depth, self.int) && all_bits(depth_f32, self.float)
    }
}

// The mark of a word.
const WORD: u32 = 0x5a5a_5a5a;

fn all<T: Copy + Drop + PartialEq>(s: &[T], v: T) -> bool
    ensures { result ≡ list_all (λ x. T.eq x v) s.now }
{
    s.iter().all(|x| *x == v)
}

fn all_bits(s: &[f32], bits: u32) -> bool
    ensures { result ≡ all_floats bits s.now }
{
    s.iter().all(|x| bits_of(*x) == bits)
}

#[derive(Drop)]
pub struct Memories {
    pub plane: Vec<u8>,
    pub depth: Vec<i32>,
    pub depth_f32: Vec<f32>,
    pub command: Vec<u32>,
    pub textures: Vec<u32>,
    pub models: Vec<u32>,
}

impl Memories {
    // Plane and depths have one element more than the calls take, so that a length can be one too
    // great.
    pub fn new(alloc: Global) -> Result<Memories, AllocError>
        ensures plane { IfOk result (λ m. vec_len m.plane ≡ 307201) }
        ensures depth { IfOk result (λ m. vec_len m.depth ≡ 76801) }
        ensures depth_f32 { IfOk result (λ m. vec_len m.depth_f32 ≡ 76801) }
        ensures command { IfOk result (λ m. vec_len m.command ≡ 524291) }
        ensures textures { IfOk result (λ m. vec_len m.textures ≡ 1024) }
        ensures models { IfOk result (λ m. vec_len m.models ≡ 524291) }
    {
        Ok(Memories {
            plane: vec![in alloc; 0; PLANE_BYTES + 1]?,
            depth: vec![in alloc; 0; PIXELS + 1]?,
            depth_f32: vec![in alloc; 0.0; PIXELS + 1]?,
            command: vec![in alloc; 0; MAX_COMMAND_WORDS as usize]?,
            textures: vec![in alloc; 0; TEXTURE_WORDS]?,
            models: vec![in alloc; 0; MODEL_WORDS]?,
        })
    }

    pub fn mark(&mut self)
        ensures plane { self.new.plane.items ≡ replicate (vec_len self.old.plane) 90 }
        ensures depth { self.new.depth.items ≡ replicate (vec_len self.old.depth) (negsuc 4) }
        ensures depth_f32 { self.new.depth_f32.items ≡ replicate (vec_len self.old.depth_f32) (from_bits binary32 1048576000) }
        ensures command { self.new.command.items ≡ replicate (vec_len self.old.command) 1515870810 }
        ensures textures { self.new.textures.items ≡ replicate (vec_len self.old.textures) 1515870810 }
        ensures models { self.new.models.items ≡ replicate (vec_len self.old.models) 1515870810 }
    {
        self.plane.fill(Fill::MARKS.byte);
        self.depth.fill(Fill::MARKS.int);
        self.depth_f32.fill(float_of(Fill::MARKS.float));
        self.command.fill(WORD);
        self.textures.fill(WORD);
        self.models.fill(WORD);
    }

    // Does each memory have its marks?
    pub fn marked(&self) -> [bool; 6]
        ensures plane { get_or result 0 true ≡ all_nats 90 self.now.plane.items }
        ensures depth { get_or result 1 true ≡ all_ints (negsuc 4) self.now.depth.items }
        ensures depth_f32 { get_or result 2 true ≡ all_floats 1048576000 self.now.depth_f32.items }
        ensures command { get_or result 3 true ≡ all_nats 1515870810 self.now.command.items }
        ensures textures { get_or result 4 true ≡ all_nats 1515870810 self.now.textures.items }
        ensures models { get_or result 5 true ≡ all_nats 1515870810 self.now.models.items }
    {
        [
            all(&self.plane, Fill::MARKS.byte),
            all(&self.depth, Fill::MARKS.int),
            all_bits(&self.depth_f32, Fill::MARKS.float),
            all(&self.command, WORD),
            all(&self.textures, WORD),
            all(&self.models, WORD),
        ]
    }
}

#[cfg(test)]
mod tests {
    use super::*;
    use std::test::Fail;

    #[test]
    fn marks_are_seen(rt: HostRuntime) -> Result<(), Fail> {
        let mut memories = Memories::new(rt.alloc())?;
        assert_eq!(rt; memories.marked(), [false; 6]);
        memories.mark();
        assert_eq!(rt; memories.marked(), [true; 6]);
        Ok(())
    }
}
