// A meter whose record was found within its limits. Registers show no other.
ghost use Rattle.std.specs.Prelude.{◌≡◌, true, false, MatchOption};
ghost use Rattle.meter.specs.Meters.{meter_ok};

use crate::Meter;

#[derive(Clone, Copy)]
pub struct Sound {
    pub meter: Meter,
    pub ghost within: { meter_ok meter ≡ true },
}

impl Meter {
    // The meter as a sound one. There is none where its record is out of limits.
    pub fn sound(self) -> Option<Sound>
        ensures { MatchOption result (meter_ok self ≡ false) (λ sound. sound.meter ≡ self) }
    {
        if !self.within() {
            return None;
        }
        Some(Sound { meter: self })
    }
}
