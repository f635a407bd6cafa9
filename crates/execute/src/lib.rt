// The command whose payload is complete: what it is (`command`), and what it does. One that sets is
// lent the command area, one that loads the stores too, and one that paints (`paint`) the picture.
#![tactic(auto)]

pub mod clear;
pub mod paint;
pub mod set;
pub mod upload;

ghost use Rattle.std.specs.Prelude.{◌≡◌, List, ℕ, ◌≤◌, length, Some};
ghost use Rattle.store.specs.declared.Kind.TheVariants.{Texture, Model};
ghost use Rattle.state.specs.State.{most_payload};
ghost use Rattle.command.specs.declared.Command.TheVariants.{Sets, Loads};
ghost use Rattle.command.specs.Command.{command_of};
ghost use Rattle.execute.specs.Control as control;
ghost use Rattle.execute.specs.Kept.{Formed, as_box, control_of, ended_state};

use command::Setting;
use state::State;
use store::Kind;
use verdict::Verdict;

// The state after a command, in place: no command is begun any more, and what was refused is noted.
fn ended(state: &mut State, verdict: Verdict)
    ensures { state.new ≡ ended_state state.old state.old.settings state.old.textures state.old.models verdict }
{
    state.notes = verdict::noted(state.notes, state.opcode, verdict);
    state.opcode = 0;
    state.gathered = 0;
    state.wanted = 0;
}

// The payload is the first `gathered` words of the command area. T and M, the stores' words, stay.
// The state is changed in place: handed on by value its slots are copied each time.
pub fn after_set(setting: Setting, state: &mut State, command: &[u32])
    requires opcode_value { command_of state.old.opcode ≡ Some (Sets setting) }
    requires gathered_in_bounds { state.old.gathered ≤ length command.now }
    ensures { (T M : List ℕ) → control_of state.new command.now T M ≡ (control.execute as_box (control_of state.old command.now T M)).control }
{
    let p = &command[..state.gathered as usize];
    match set::set(setting, state.settings, p) {
        Ok(settings) => {
            state.settings = settings;
            ended(state, Ok(()));
        }
        Err(refused) => ended(state, Err(refused)),
    }
}

pub fn after_load(
    kind: Kind,
    state: &mut State,
    command: &[u32],
    textures: &mut [u32],
    models: &mut [u32],
)
    requires opcode_value { command_of state.old.opcode ≡ Some (Loads kind) }
    requires gathered_in_bounds { state.old.gathered ≤ length command.now }
    requires command_len { length command.now ≡ most_payload }
    requires formed { Formed Texture state.old.textures (length textures.old) }
    requires formed_2 { Formed Model state.old.models (length models.old) }
    ensures { control_of state.new command.now textures.new models.new ≡ (control.execute as_box (control_of state.old command.now textures.old models.old)).control }
{
    let p = &command[..state.gathered as usize];
    match kind {
        Kind::Texture => match upload::upload_texture(state.textures, textures, p) {
            Ok(slots) => {
                state.textures = slots;
                ended(state, Ok(()));
            }
            Err(refused) => ended(state, Err(refused)),
        },
        Kind::Model => match upload::upload_model(state.models, models, p) {
            Ok(slots) => {
                state.models = slots;
                ended(state, Ok(()));
            }
            Err(refused) => ended(state, Err(refused)),
        },
    }
}
