// The clock of the system. It tells no value beforehand.
use bl_outside::Clock;
use std::time::{SystemTime, UNIX_EPOCH};

/// The system's clock. Where it can't be read it stays where it was.
#[derive(Drop)]
pub struct SystemClock<R: std::rt::Clock + Drop> {
    system: R,
    last: u64,
    readings: u64,
}

impl<R: std::rt::Clock + Drop> SystemClock<R> {
    pub fn new(system: R) -> SystemClock<R> {
        SystemClock {
            system,
            last: 0,
            readings: 0,
        }
    }
}

// Milliseconds from 1970.
fn milliseconds<R: std::rt::Clock>(system: &R) -> Option<u64> {
    let now = SystemTime::now(system).ok()?;
    let since = now.duration_since(UNIX_EPOCH).ok()?;
    u64::try_from(since.as_millis()).ok()
}

impl<R: std::rt::Clock + Drop> Clock for SystemClock<R> {
    ghost use Rattle.std.specs.Prelude.{None};

    ghost last = { λ c. c.last };

    ghost readings = { λ c. c.readings };

    ghost fixed = { λ _. None };

    fn now(&mut self) -> u64 {
        self.readings = self.readings.saturating_add(1);
        self.last = milliseconds(&self.system).unwrap_or(self.last);
        self.last
    }
}
