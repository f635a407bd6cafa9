// The machine: words in, a picture and a status out. Three calls, each of which takes every input:
// `reset`, `feed` and `pixel`.
#![tactic(auto)]

ghost use Rattle.std.specs.Prelude.{◌≡◌, length};
ghost use Rattle.screen.specs.Plane.{answered, pixel_of};
ghost use Rattle.execute.specs.Kept.{machine, as_box};
ghost use Rattle.run.specs.Framing.{run};
ghost use Rattle.run.specs.Sound.{Sound};
ghost use Rattle.vpu.specs.Calls.{number_of, outcome, lengths_ok, reset, feed};

use screen::plane::{PIXELS, PLANE_BYTES, Rgba, WrongLength};
use state::{MAX_COMMAND_WORDS, State};

const MOST_WORDS: usize = 16777216;

// What a call answers: 0, 1 and 2 of rule 1.5.
#[derive(Clone, Copy, Debug, PartialEq, Eq)]
pub enum Answer {
    Done,
    WrongLength,
    Malformed,
}

impl From<Answer> for u32 {
    ghost from_gives = { λ a n. n ≡ number_of a };

    fn from(answer: Answer) -> u32 {
        match answer {
            Answer::Done => 0,
            Answer::WrongLength => 1,
            Answer::Malformed => 2,
        }
    }
}

// What a call answers, and the state after it.
// Stays: no Result, since the clauses of `reset` and `feed`, and C, are given a state also by a call
// that is refused.
#[derive(Clone, Copy, Debug, PartialEq)]
pub struct Fed {
    pub answer: Answer,
    pub state: State,
}

// Are the lent memories as long as they have to be?
#[tactic(auto, unfolding(crate::specs::Calls::lengths_ok))]
pub fn lengths_ok(
    plane: usize,
    depth: usize,
    depth_f32: usize,
    command: usize,
    textures: usize,
    models: usize,
) -> bool
    ensures { result ≡ lengths_ok plane depth depth_f32 command textures models }
{
    plane == PLANE_BYTES
        && depth == PIXELS
        && depth_f32 == PIXELS
        && command == MAX_COMMAND_WORDS as usize
        && textures <= MOST_WORDS
        && models <= MOST_WORDS
}

// The command area is lent only to have its length tested: a reset leaves it as it is.
pub fn reset(
    plane: &mut [u8],
    depth: &mut [i32],
    depth_f32: &mut [f32],
    command: &[u32],
    textures: &mut [u32],
    models: &mut [u32],
) -> Fed
    ensures { outcome (number_of result.answer) (machine result.state plane.new depth.new depth_f32.new command.now textures.new models.new)
        ≡ reset plane.old depth.old depth_f32.old command.now textures.old models.old }
{
    let state = State::fresh();
    let fits = lengths_ok(
        plane.len(),
        depth.len(),
        depth_f32.len(),
        command.len(),
        textures.len(),
        models.len(),
    );
    if !fits {
        return Fed {
            answer: Answer::WrongLength,
            state,
        };
    }
    plane.fill(0);
    screen::depths::refill(depth, depth_f32);
    textures.fill(0);
    models.fill(0);
    Fed {
        answer: Answer::Done,
        state,
    }
}

// The lengths have been tested: from here on the picture is arrays, which have them by their types.
fn run_words(
    state: State,
    words: &[u32],
    plane: &mut [u8],
    depth: &mut [i32],
    depth_f32: &mut [f32],
    command: &mut [u32],
    textures: &mut [u32],
    models: &mut [u32],
) -> State
    requires { Sound state (length plane.old) (length depth.old) (length depth_f32.old) (length command.old) (length textures.old) (length models.old) }
    ensures { machine result plane.new depth.new depth_f32.new command.new textures.new models.new
        ≡ run as_box (machine state plane.old depth.old depth_f32.old command.old textures.old models.old) words.now }
{
    let plane = plane.as_mut_array::<PLANE_BYTES>().unwrap();
    let depth = depth.as_mut_array::<PIXELS>().unwrap();
    let depth_f32 = depth_f32.as_mut_array::<PIXELS>().unwrap();
    run::run_words(
        state, words, plane, depth, depth_f32, command, textures, models,
    )
}

// A run of words, possibly none. A state that is not well formed is answered and left alone.
pub fn feed(
    state: State,
    words: &[u32],
    plane: &mut [u8],
    depth: &mut [i32],
    depth_f32: &mut [f32],
    command: &mut [u32],
    textures: &mut [u32],
    models: &mut [u32],
) -> Fed
    ensures { outcome (number_of result.answer) (machine result.state plane.new depth.new depth_f32.new command.new textures.new models.new)
        ≡ feed state words.now plane.old depth.old depth_f32.old command.old textures.old models.old }
{
    let right = lengths_ok(
        plane.len(),
        depth.len(),
        depth_f32.len(),
        command.len(),
        textures.len(),
        models.len(),
    );
    if !right {
        return Fed {
            answer: Answer::WrongLength,
            state,
        };
    }
    let formed = state::well_formed(state, textures.len(), models.len());
    if !formed {
        return Fed {
            answer: Answer::Malformed,
            state,
        };
    }
    let after = run_words(
        state, words, plane, depth, depth_f32, command, textures, models,
    );
    Fed {
        answer: Answer::Done,
        state: after,
    }
}

// The four bytes of a pixel, or that the plane's length is wrong.
pub fn pixel(plane: &[u8], x: usize, y: usize) -> Result<Rgba, WrongLength>
    ensures { answered result ≡ pixel_of plane.now x y }
{
    screen::plane::pixel(plane, x, y)
}
