// What a command is, by its opcode: the one place that tells opcodes apart (rule 3.1).
#![tactic(auto)]

ghost use Rattle.std.specs.Prelude.{◌≡◌};
ghost use Rattle.command.specs.Command.{command_of, setting_words, draw_words};

use store::Kind;

// What a command sets: shading mode and lighting, a matrix, a light.
#[derive(Clone, Copy, Debug, PartialEq, Eq)]
pub enum Setting {
    Mode,
    Matrix,
    Light,
}

// What a command paints. `has_normal`: each vertex comes with one.
#[derive(Clone, Copy, Debug, PartialEq, Eq)]
pub enum Draw {
    Clear,
    Sprite,
    Flat,
    Transformed { has_normal: bool },
    Textured { has_normal: bool },
    Model,
}

#[derive(Clone, Copy, Debug, PartialEq, Eq)]
pub enum Command {
    Sets(Setting),
    Loads(Kind),
    Paints(Draw),
}

// The command with this opcode, if there is one.
#[tactic(auto, unfolding(crate::specs::Command::command_of))]
pub fn command_of(opcode: u32) -> Option<Command>
    ensures { result ≡ command_of opcode }
{
    match opcode {
        0x01 => Some(Command::Sets(Setting::Mode)),
        0x02 => Some(Command::Sets(Setting::Matrix)),
        0x04 => Some(Command::Paints(Draw::Clear)),
        0x10 => Some(Command::Paints(Draw::Sprite)),
        0x12 => Some(Command::Paints(Draw::Flat)),
        0x14 => Some(Command::Paints(Draw::Transformed { has_normal: false })),
        0x15 => Some(Command::Sets(Setting::Light)),
        0x16 => Some(Command::Paints(Draw::Transformed { has_normal: true })),
        0x17 => Some(Command::Loads(Kind::Texture)),
        0x18 => Some(Command::Paints(Draw::Textured { has_normal: false })),
        0x19 => Some(Command::Paints(Draw::Textured { has_normal: true })),
        0x1a => Some(Command::Loads(Kind::Model)),
        0x1b => Some(Command::Paints(Draw::Model)),
        _ => None,
    }
}

// How many payload words a command that sets has, and one that paints.
pub fn setting_words(setting: Setting) -> usize
    ensures { result ≡ setting_words setting }
{
    match setting {
        Setting::Mode => 2,
        Setting::Matrix => 17,
        Setting::Light => 17,
    }
}

pub fn draw_words(draw: Draw) -> usize
    ensures { result ≡ draw_words draw }
{
    match draw {
        Draw::Clear => 3,
        Draw::Sprite => 7,
        Draw::Flat => 11,
        Draw::Transformed { has_normal: false } => 12,
        Draw::Transformed { has_normal: true } => 21,
        Draw::Textured { has_normal: false } => 20,
        Draw::Textured { has_normal: true } => 29,
        Draw::Model => 2,
    }
}
