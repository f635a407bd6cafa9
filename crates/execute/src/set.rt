// 01, 02 and 15: what the settings become.
ghost use Rattle.std.specs.Prelude.{◌≡◌};
ghost use Rattle.execute.specs.Commands.{settings_after};

use command::{Setting, setting_words};
use settings::Settings;
use verdict::{Verdict, wrong_length};

#[tactic(auto, unfolding(crate::specs::Commands::settings_after))]
pub fn set(setting: Setting, s: Settings, p: &[u32]) -> Verdict<Settings>
    ensures { result ≡ settings_after s setting p.now }
{
    if p.len() != setting_words(setting) {
        return Err(wrong_length());
    }
    match setting {
        Setting::Mode => settings::set_mode(s, p.try_into().unwrap()),
        Setting::Matrix => settings::set_matrix(s, p.try_into().unwrap()),
        Setting::Light => settings::set_light(s, p.try_into().unwrap()),
    }
}
