//! What a disk in memory is told of its calls to come: on which one it stops, and on which one it fails.
ghost use Rattle.std.specs.Prelude.{◌≡◌, ◌≤◌, [], length, take, false, IsTrue};
ghost use Rattle.edge.specs.Faults.{CountRose};
ghost use Rattle.edge.specs.DiskScript.{after_turn, is_ready, turn_of, with_fault};

use std::marker::Model;

/// What a call meets.
#[derive(Clone, Copy, PartialEq, Eq)]
pub enum Turn {
    /// Nothing.
    Goes,
    /// A failure of this call.
    Fails,
    /// A stop, at which the call is not made.
    Stops,
}

/// The stop and the failure to come, whether a stop stands, what it leaves in the ranges, and the faults so far.
#[derive(Drop)]
pub struct DiskScript {
    to_stop: u32,
    to_failure: u32,
    stopped: bool,
    pattern: [u8; 16],
    pattern_size: usize,
    count: u64,
}

impl Model for DiskScript {
    ghost use Rattle.std.specs.Prelude.{◌≡◌, ◌≤◌, length, take};
    ghost use Rattle.edge.specs.DiskScript.{Calls};

    ghost Value = { Calls };

    ghost view = { λ s. record { stop_in = s.to_stop; fail_in = s.to_failure; is_stopped = s.stopped; fill = take s.pattern_size s.pattern; faults = s.count } };

    ghost invariant = { λ s. (s.pattern_size ≤ 16) × (length s.pattern ≡ 16) };
}

// These bytes first, and zeros.
fn padded(bytes: &[u8]) -> [u8; 16]
    requires { length bytes.now ≤ 16 }
    ensures { take (length bytes.now) result ≡ bytes.now }
{
    let mut all = [0; 16];
    all[..bytes.len()].copy_from_slice(bytes);
    all
}

impl DiskScript {
    /// Nothing is to come.
    pub fn new() -> DiskScript
        ensures { result ≡ record { stop_in = 0; fail_in = 0; is_stopped = false; fill = []; faults = 0 } }
    {
        DiskScript {
            to_stop: 0,
            to_failure: 0,
            stopped: false,
            pattern: [0; 16],
            pattern_size: 0,
            count: 0,
        }
    }

    /// The n-th call from now stops, and leaves this fill.
    pub fn stop_at(&mut self, n: u32, fill: &[u8])
        requires { length fill.now ≤ 16 }
        ensures { self.new ≡ record self.old { stop_in = n; fill = fill.now } }
    {
        self.to_stop = n;
        self.pattern = padded(fill);
        self.pattern_size = fill.len();
    }

    /// The n-th call from now fails.
    pub fn fail_at(&mut self, n: u32)
        ensures { self.new ≡ record self.old { fail_in = n } }
    {
        self.to_failure = n;
    }

    /// No stop stands any more.
    pub fn resume(&mut self)
        ensures { self.new ≡ record self.old { is_stopped = false } }
    {
        self.stopped = false;
    }

    /// What a stop leaves in the ranges.
    pub fn fill(&self) -> &[u8]
        ensures { result.now ≡ self.now.fill }
    {
        &self.pattern[..self.pattern_size]
    }

    /// Counts a fault.
    pub fn fault(&mut self)
        ensures counted { self.new ≡ with_fault self.old }
        ensures later { self.old.faults ≤ self.new.faults }
        ensures rose { CountRose self.old.faults self.new.faults }
    {
        self.count = self.count.saturating_add(1);
    }

    /// What the next call meets, and counts it.
    pub fn turn(&mut self) -> Turn
        ensures turn { result ≡ turn_of self.old }
        ensures after { self.new ≡ after_turn self.old }
        ensures later { self.old.faults ≤ self.new.faults }
        ensures calm { result ≡ Turn.Goes → self.new.faults ≡ self.old.faults }
        ensures failed { result ≡ Turn.Fails → CountRose self.old.faults self.new.faults }
        ensures stopped { result ≡ Turn.Stops → CountRose self.old.faults self.new.faults }
        ensures ready { IsTrue (is_ready self.old) → (result ≡ Turn.Goes) × IsTrue (is_ready self.new) }
    {
        if self.stopped {
            self.fault();
            return Turn::Fails;
        }
        let stops = self.to_stop == 1;
        let fails = self.to_failure == 1;
        self.to_stop = self.to_stop.saturating_sub(1);
        self.to_failure = self.to_failure.saturating_sub(1);
        if stops {
            self.stopped = true;
            self.fault();
            return Turn::Stops;
        }
        if fails {
            self.fault();
            return Turn::Fails;
        }
        Turn::Goes
    }
}
