//! The containers of one rating group in a record that is not closed.
ghost use Rattle.std.specs.Prelude.{◌≡◌, ◌≤◌, ◌+◌, ◌++◌, ◌∷◌, [], length, OnOk};
ghost use Rattle.records.specs.Usage.{unit_usage};

use std::alloc::AllocError;
use std::marker::Model;
use units::{List, UnitUsage, Used};

/// The containers of one rating group in a record that is not closed, with room for more.
#[derive(Drop)]
pub struct Group {
    group: u32,
    used: Vec<Used>,
}

impl Model for Group {
    ghost use Rattle.std.specs.Prelude.{◌-◌, vec_len, vec_capacity};
    ghost use Rattle.records.specs.Groups.{GroupSeen};

    ghost Value = { GroupSeen };

    ghost view = { λ g. record { group = g.group; used = g.used.items; room = vec_capacity g.used - vec_len g.used } };
}

impl Group {
    /// A group with these containers, whose memory it keeps.
    pub fn of(group: u32, used: List<Used>) -> Group
        ensures group { result.group ≡ group }
        ensures used { result.used ≡ used }
    {
        Group {
            group,
            used: used.into_vec(),
        }
    }

    /// Its number.
    pub fn number(&self) -> u32
        ensures { result ≡ self.now.group }
    {
        self.group
    }

    /// Makes room for that many more containers.
    pub fn make_room(&mut self, n: usize) -> Result<(), AllocError>
        ensures room { OnOk result (n ≤ self.new.room) }
        ensures kept { self.old.room ≤ self.new.room }
        ensures group { self.new.group ≡ self.old.group }
        ensures used { self.new.used ≡ self.old.used }
    {
        self.used.reserve(n)
    }

    /// Puts more containers behind its own.
    pub fn append(&mut self, used: List<Used>)
        requires { length used ≤ self.old.room }
        ensures group { self.new.group ≡ self.old.group }
        ensures used { self.new.used ≡ self.old.used ++ used }
    {
        let mut more = used.into_vec();
        match self.used.append(&mut more) {
            Ok(()) => {}
            Err(_) => unreachable!(),
        }
    }

    /// Its containers as an entry of a record, which takes no memory.
    pub fn into_usage(self) -> UnitUsage
        ensures { result ≡ unit_usage self.group self.used }
    {
        let Group { group, used } = self;
        UnitUsage {
            group,
            ask: None,
            used: List::from_vec(used),
        }
    }
}
