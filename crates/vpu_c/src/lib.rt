// The machine for C: the same three calls, with the state as plain data and the answer as a number.
// Every byte that a host can send has an answer: a switch above 1 is malformed, after the lengths.
#![tactic(auto)]

ghost use Rattle.std.specs.Prelude.{◌≡◌};
ghost use Rattle.screen.specs.Plane.{pixel_of};
ghost use Rattle.plain.specs.Plain.{shown};
ghost use Rattle.vpu_c.specs.Calls.{handed, put_fed, reset_c, feed_c};

use plain::{VpuColour, VpuState};
use state::State;
use vpu::{Answer, Fed};

#[repr(C)]
#[derive(Clone, Copy, Debug, PartialEq)]
pub struct VpuFed {
    pub answer: u32,
    pub state: VpuState,
}

impl From<Fed> for VpuFed {
    ghost from_gives = { λ fed v. v ≡ put_fed fed };

    fn from(fed: Fed) -> VpuFed {
        let Fed { answer, state } = fed;
        VpuFed {
            answer: u32::from(answer),
            state: VpuState::from(state),
        }
    }
}

#[unsafe(no_mangle)]
pub extern "C" fn vpu_reset(
    plane: &mut [u8],
    depth: &mut [i32],
    depth_f32: &mut [f32],
    command: &[u32],
    textures: &mut [u32],
    models: &mut [u32],
) -> VpuFed
    ensures { handed result.answer result.state plane.new depth.new depth_f32.new command.now textures.new models.new
        ≡ reset_c plane.old depth.old depth_f32.old command.now textures.old models.old }
{
    VpuFed::from(vpu::reset(plane, depth, depth_f32, command, textures, models))
}

#[unsafe(no_mangle)]
pub extern "C" fn vpu_feed(
    state: VpuState,
    words: &[u32],
    plane: &mut [u8],
    depth: &mut [i32],
    depth_f32: &mut [f32],
    command: &mut [u32],
    textures: &mut [u32],
    models: &mut [u32],
) -> VpuFed
    ensures { handed result.answer result.state plane.new depth.new depth_f32.new command.new textures.new models.new
        ≡ feed_c state words.now plane.old depth.old depth_f32.old command.old textures.old models.old }
{
    if !plain::switches_ok(state) {
        if !vpu::lengths_ok(
            plane.len(),
            depth.len(),
            depth_f32.len(),
            command.len(),
            textures.len(),
            models.len(),
        ) {
            return VpuFed {
                answer: u32::from(Answer::WrongLength),
                state,
            };
        }
        return VpuFed {
            answer: u32::from(Answer::Malformed),
            state,
        };
    }
    VpuFed::from(vpu::feed(
        State::from(state),
        words,
        plane,
        depth,
        depth_f32,
        command,
        textures,
        models,
    ))
}

#[unsafe(no_mangle)]
pub extern "C" fn vpu_pixel(plane: &[u8], x: usize, y: usize) -> VpuColour
    ensures { shown result ≡ pixel_of plane.now x y }
{
    VpuColour::from(vpu::pixel(plane, x, y))
}
