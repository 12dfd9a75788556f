// Events: what happened (kind) on which machine.
ghost use Rattle.std.specs.Prelude.{◌≡◌, ◌+◌, ◌*◌, ◌<◌, ◌≤◌, MatchResult, Some};
ghost use Rattle.symbols.specs.Texts.{event_words};
ghost use Rattle.std.proofs.Common.{rules, arith};

use crate::symbol::Symbol;
use std::fmt;

const MACHINES: u32 = 16;

const KINDS: u32 = 4096;

// A machine from 0 to 15 and a kind from 0 to 4,095.
#[derive(Clone, Copy, PartialEq, Eq, Debug)]
pub struct Event {
    machine: u16,
    kind: u16,
    ghost ranges: { (machine < 16) × (kind < 4096) },
}

// The machine or the kind is beyond its range.
#[derive(Clone, Copy, Debug)]
pub struct OutOfRange;

impl Event {
    // The event of a machine and a kind, refused exactly where one of them is out of range.
    pub fn new(machine: u32, kind: u32) -> Result<Event, OutOfRange>
        ensures { MatchResult result
            (λ e. (machine ≤ 15) × (kind ≤ 4095) × (e.machine ≡ machine) × (e.kind ≡ kind))
            (λ _. machine ≤ 15 → kind ≤ 4095 → ⊥) }
    {
        if machine < MACHINES && kind < KINDS {
            Ok(Event {
                machine: machine as u16,
                kind: kind as u16,
            })
        } else {
            Err(OutOfRange)
        }
    }

    // The machine, from 0 to 15.
    pub fn machine(self) -> u16
        ensures { result ≡ self.machine }
    {
        self.machine
    }

    // What happened there, from 0 to 4,095.
    pub fn kind(self) -> u16
        ensures { result ≡ self.kind }
    {
        self.kind
    }
}

// An event's code is 4,096 × machine + kind, so that the codes are all numbers of 16 bits.
impl Symbol for Event {
    const LAST: u16 = 65535;

    ghost LAST = { 65535 };

    ghost code = { λ e. 4096 * e.machine + e.kind };

    ghost apart = { first_of (Prim.search rules, Prim.grind (arith, Self.row.coded.inj)) };

    fn code(self) -> u16 {
        4096 * self.machine + self.kind
    }
}

// An event is printed as its machine, a point and its kind.
impl fmt::Display for Event {
    ghost output = { λ e. Some (event_words e.machine e.kind) };

    fn fmt<W: fmt::Write>(&self, f: &mut fmt::Formatter<W>) -> fmt::Result {
        let Event { machine, kind, .. } = self;
        write!(f, "{machine}.{kind}")
    }
}
