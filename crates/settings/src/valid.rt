// Whether settings are well formed: every float finite, the shading mode 0 or 1. What the commands
// leave always is (proofs/Formed.antt); a state that a caller hands in need not be.
ghost use Rattle.std.specs.Prelude.{◌≡◌};
ghost use Rattle.settings.specs.Settings.{light_ok, lights_ok, settings_ok};

use crate::Settings;
use ieee::bits::all_finite;
use light::Light;

#[tactic(auto, unfolding(crate::specs::Settings::light_ok))]
fn light_ok(l: Light) -> bool
    ensures { result ≡ light_ok l }
{
    all_finite(&l.ambient)
        && all_finite(&l.diffuse)
        && all_finite(&l.specular)
        && all_finite(&l.emission)
        && all_finite(&l.position)
}

fn lights_ok(lights: [Light; 8]) -> bool
    ensures { result ≡ lights_ok lights }
{
    lights.iter().all(|l| light_ok(*l))
}

#[tactic(auto, unfolding(crate::specs::Settings::settings_ok))]
pub fn settings_ok(s: Settings) -> bool
    ensures { result ≡ settings_ok s }
{
    all_finite(&s.matrices) && s.shading_mode <= 1 && lights_ok(s.lights)
}
