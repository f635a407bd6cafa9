// The machine of a program: the state between its calls, and the six memories that a host lends,
// on the heap.
#![tactic(auto)]

ghost use Rattle.std.specs.Prelude.{◌≡◌, replicate, IfOk, vec_len};
ghost use Rattle.screen.specs.Plane.{plane_bytes};
ghost use Rattle.screen.specs.Draw.{pixels};
ghost use Rattle.state.specs.State.{most_payload, fresh};
ghost use Rattle.vpu.specs.Calls.{number_of, outcome, reset, feed};
ghost use Rattle.machine.specs.Held.{held};

use screen::plane::{PIXELS, PLANE_BYTES};
use state::State;
use std::alloc::{AllocError, Global};
use vpu::Answer;

#[derive(Drop)]
pub struct Machine {
    pub state: State,
    pub plane: Vec<u8>,
    pub depth: Vec<i32>,
    pub depth_f32: Vec<f32>,
    pub command: Vec<u32>,
    pub textures: Vec<u32>,
    pub models: Vec<u32>,
}

impl Machine {
    // A machine whose stores have so many words each. It has to be reset before it is fed.
    pub fn new(alloc: Global, store: usize) -> Result<Machine, AllocError>
        ensures state { IfOk result (λ m. m.state ≡ fresh) }
        ensures plane_len { IfOk result (λ m. vec_len m.plane ≡ plane_bytes) }
        ensures depth_len { IfOk result (λ m. vec_len m.depth ≡ pixels) }
        ensures depth_f32_len { IfOk result (λ m. vec_len m.depth_f32 ≡ pixels) }
        ensures command_len { IfOk result (λ m. vec_len m.command ≡ most_payload) }
        ensures textures { IfOk result (λ m. m.textures.items ≡ replicate store 0) }
        ensures models { IfOk result (λ m. m.models.items ≡ replicate store 0) }
    {
        Ok(Machine {
            state: State::fresh(),
            plane: vec![in alloc; 0; PLANE_BYTES]?,
            depth: vec![in alloc; 0; PIXELS]?,
            depth_f32: vec![in alloc; 0.0; PIXELS]?,
            command: vec![in alloc; 0; state::MAX_COMMAND_WORDS as usize]?,
            textures: vec![in alloc; 0; store]?,
            models: vec![in alloc; 0; store]?,
        })
    }

    pub fn reset(&mut self) -> Answer
        ensures { outcome (number_of result) (held self.new)
            ≡ reset self.old.plane.items self.old.depth.items self.old.depth_f32.items self.old.command.items self.old.textures.items self.old.models.items }
    {
        let begun = vpu::reset(
            &mut self.plane,
            &mut self.depth,
            &mut self.depth_f32,
            &self.command,
            &mut self.textures,
            &mut self.models,
        );
        self.state = begun.state;
        begun.answer
    }

    // A run of words, possibly none.
    pub fn feed(&mut self, words: &[u32]) -> Answer
        ensures { outcome (number_of result) (held self.new)
            ≡ feed self.old.state words.now self.old.plane.items self.old.depth.items self.old.depth_f32.items self.old.command.items self.old.textures.items self.old.models.items }
    {
        let fed = vpu::feed(
            self.state,
            words,
            &mut self.plane,
            &mut self.depth,
            &mut self.depth_f32,
            &mut self.command,
            &mut self.textures,
            &mut self.models,
        );
        self.state = fed.state;
        fed.answer
    }
}

#[cfg(test)]
mod tests {
    use super::*;

    // White, which no dithering changes, with an alpha of 128 (docs/COMMANDS.md, "04 Clear").
    #[test]
    fn clears(rt: HostRuntime) -> Result<(), AllocError> {
        let mut machine = Machine::new(rt.alloc(), 4)?;
        assert_eq!(rt; machine.reset(), Answer::Done);
        assert_eq!(rt; machine.plane.first().copied(), Some(0));
        let answer = machine.feed(&[0x0400_0003, 1, 0xffff_ff80, 0]);
        assert_eq!(rt; answer, Answer::Done);
        assert_eq!(rt; machine.state.notes.status, 0);
        assert_eq!(rt; machine.plane.first().copied(), Some(255));
        assert_eq!(rt; machine.plane.last().copied(), Some(128));
        Ok(())
    }
}
