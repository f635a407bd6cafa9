// The loop over the words. Payload is copied in runs. In the state it changes only the framing's
// four numbers, and so do commands that paint. Those that set or load change the rest too.
#![tactic(auto)]

ghost use Rattle.std.specs.Prelude.{◌≡◌, true, ◌≤◌, length, Some};
ghost use Rattle.store.specs.Slots.{slots_ok};
ghost use Rattle.store.specs.declared.Kind.TheVariants as kind;
ghost use Rattle.command.specs.declared.Command.TheVariants.{Paints};
ghost use Rattle.command.specs.Command.{command_of};
ghost use Rattle.execute.specs.Control.{executed};
ghost use Rattle.execute.specs.Kept.{machine, as_box};
ghost use Rattle.framing.specs.Frames.{with_frame};
ghost use Rattle.run.specs.Framing.{run};
ghost use Rattle.run.specs.Sound.{Sound};

use command::{Command, Draw, command_of};
use execute::{after_load, after_set};
use framing::Frame;
use screen::plane::{PIXELS, PLANE_BYTES};
use state::State;
use verdict::unknown;

// A command that paints changes neither settings nor stores, so that the state need not be built
// again: only the frame changes.
fn painted(
    draw: Draw,
    s: State,
    f: Frame,
    plane: &mut [u8; PLANE_BYTES],
    depth: &mut [i32; PIXELS],
    depth_f32: &mut [f32; PIXELS],
    command: &[u32],
    textures: &[u32],
    models: &[u32],
) -> Frame
    requires opcode_value { command_of f.opcode ≡ Some (Paints draw) }
    requires gathered_in_bounds { f.gathered ≤ length command.now }
    requires textures_value { slots_ok kind.Texture (length textures.now) 0 s.textures ≡ true }
    requires models_value { slots_ok kind.Model (length models.now) 0 s.models ≡ true }
    ensures { machine (with_frame s result) plane.new depth.new depth_f32.new command.now textures.now models.now
        ≡ executed as_box (machine (with_frame s f) plane.old depth.old depth_f32.old command.now textures.now models.now) }
{
    let n = f.gathered as usize;
    let settings = s.settings;
    let slots = s.textures;
    let model_slots = s.models;
    let verdict = execute::paint::paint(
        draw,
        &command[..n],
        settings,
        slots,
        textures,
        model_slots,
        models,
        plane,
        depth,
        depth_f32,
    );
    f.ended(verdict)
}

pub fn run_words(
    state: State,
    words: &[u32],
    plane: &mut [u8; PLANE_BYTES],
    depth: &mut [i32; PIXELS],
    depth_f32: &mut [f32; PIXELS],
    command: &mut [u32],
    textures: &mut [u32],
    models: &mut [u32],
) -> State
    requires { Sound state (length plane.old) (length depth.old) (length depth_f32.old) (length command.old) (length textures.old) (length models.old) }
    ensures { machine result plane.new depth.new depth_f32.new command.new textures.new models.new
        ≡ run as_box (machine state plane.old depth.old depth_f32.old command.old textures.old models.old) words.now }
{
    let mut s = state;
    let mut f = Frame::from(state);
    let mut left = words;
    while let Some((&w, rest)) = left.split_first() {
        left = rest;
        f = f.take_word(w, command);
        if f.ready() {
            match command_of(f.opcode) {
                Some(Command::Sets(setting)) => {
                    s = f.into_state(s);
                    after_set(setting, &mut s, command);
                    f = Frame::from(s);
                }
                Some(Command::Loads(kind)) => {
                    s = f.into_state(s);
                    after_load(kind, &mut s, command, textures, models);
                    f = Frame::from(s);
                }
                Some(Command::Paints(d)) => {
                    f = painted(d, s, f, plane, depth, depth_f32, command, textures, models);
                }
                None => f = f.ended(Err(unknown())),
            }
        } else {
            let (run, rest) = left.split_at(f.between(left.len()));
            left = rest;
            f = f.gather(run, command);
        }
    }
    f.into_state(s)
}
