//! The clock of the system.
ghost use Rattle.std.specs.Prelude.{None};

use crate::clock::Clock;
use std::alloc::Global;
use std::rt::Clock as SystemTimes;
use std::time::SystemTime;
use units::{Moment, OutOfMemory};

/// The clock of the system, which tells nothing of the moments to come (this product's own).
///
/// Where it can't be read, or stands before 1970, it answers the first moment, and past the last moment the last.
#[derive(Drop)]
pub struct SystemClock<R: SystemTimes + Drop> {
    times: R,
}

impl<R: SystemTimes + Drop> SystemClock<R> {
    /// The clock of this system.
    pub fn new(_alloc: Global, times: R) -> Result<SystemClock<R>, OutOfMemory> {
        Ok(SystemClock { times })
    }
}

impl<R: SystemTimes + Drop> Clock for SystemClock<R> {
    ghost to_come = { λ _ n. None };

    fn now(&mut self) -> Moment {
        let Ok(time) = SystemTime::now(&self.times) else {
            return Moment::first();
        };
        match time.duration_since(SystemTime::UNIX_EPOCH) {
            Ok(since) => match Moment::new(since.as_secs().min(Moment::LAST)) {
                Some(moment) => moment,
                None => Moment::first(),
            },
            Err(_) => Moment::first(),
        }
    }
}
