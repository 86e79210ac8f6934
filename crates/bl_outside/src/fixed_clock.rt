// A clock that stands.
ghost use Rattle.std.specs.Prelude.{◌≡◌, Some};

use crate::Clock;
use std::marker::Model;

/// Always the same moment.
#[derive(Drop)]
pub struct FixedClock {
    value: u64,
    readings: u64,
}

impl Model for FixedClock {
    ghost use Rattle.bl_outside.specs.Clocks.{Standing};

    ghost Value = { Standing };

    ghost view = { λ c. record { value = c.value; readings = c.readings } };
}

impl FixedClock {
    pub fn new(value: u64) -> FixedClock
        ensures { result ≡ record { value = value; readings = 0 } }
    {
        FixedClock { value, readings: 0 }
    }
}

impl Clock for FixedClock {
    ghost last = { λ c. c.value };

    ghost readings = { λ c. c.readings };

    ghost fixed = { λ c. Some c.value };

    fn now(&mut self) -> u64 {
        self.readings = self.readings.saturating_add(1);
        self.value
    }
}
