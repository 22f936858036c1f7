// The rows of a sheet that were read, and the ports that they use.
ghost use Rattle.std.specs.Prelude.{◌≡◌, ◌∷◌, [], ◌++◌, ℕ, ◌+◌, ◌≤◌, ◌<◌, length, replicate};
ghost use Rattle.sheet.specs.Lists.{either};
ghost use Rattle.sheet.specs.Sound.{EndInRange};
ghost use Rattle.sheet.specs.Cables.{cabled, is_at};
ghost use Rattle.sheet.specs.Used.{marked, Marks, first_rows};

use crate::cables::{Cable, End};
use crate::numbers::{Port, Switch};
use crate::ranges::is_within;

// The first `count` rows of a sheet of so many switches, 0 until its front is read: no Option, since no rule asks it before. Which ports
// they use is kept as a number for each switch, in which bit p stands for port p: 512 bytes serve all switches. Contracts say the rows by
// `first_rows` of sheet and count: a Model would have to hold the switches and the count besides.
#[derive(Drop)]
pub struct Rows<'a> {
    pub sheet: &'a [u8],
    pub switches: u64,
    pub count: usize,
    used: [u64; 64],
    ghost few: { switches ≤ 64 },
    ghost marks: { Marks used (first_rows sheet.now count) },
}

// No port is used yet.
fn no_port_used() -> [u64; 64]
    ensures { result ≡ replicate 64 0 }
{
    [0; 64]
}

// The port of an end within the ranges is used from now on.
#[tactic(auto, using(crate::proofs::Marking::mark_port))]
fn use_port(used: &mut [u64; 64], end: End)
    requires { (length used.old ≡ 64) × EndInRange 64 end }
    ensures used_len { length used.new ≡ 64 }
    ensures by_index { (v p : ℕ) → marked used.new v p ≡ either (is_at v p end) (marked used.old v p) }
{
    used[usize::from(end.switch) - 1] |= 1 << end.port;
}

impl<'a> Rows<'a> {
    // Nothing of the sheet is read yet.
    #[tactic(auto, using(crate::proofs::Marking::marks_none, crate::proofs::Scan::wholes_none))]
    pub fn new(sheet: &'a [u8]) -> Rows<'a>
        ensures { (result.sheet.now ≡ sheet.now) × (result.count ≡ 0) }
    {
        Rows {
            sheet,
            switches: 0,
            count: 0,
            used: no_port_used(),
        }
    }

    // Whether a row has an end at this port of this switch. The index is cast after the range is seen: `try_from` would want an `unwrap`.
    #[tactic(auto, unfolding(crate::specs::Used::marked))]
    pub fn is_used(&self, v: Switch, p: Port) -> bool
        ensures { result ≡ cabled (first_rows self.now.sheet.now self.now.count) v.0 p.0 }
    {
        is_within(64, v.0) && is_within(48, p.0) && (self.used[(v.0 - 1) as usize] >> p.0) % 2 == 1
    }

    // Whether the port of an end is used.
    fn is_end_used(&self, end: End) -> bool
        ensures { result ≡ cabled (first_rows self.now.sheet.now self.now.count) end.switch end.port }
    {
        self.is_used(end.switch.into(), end.port.into())
    }

    // Whether either end of a cable has a port that is used.
    pub fn is_either_used(&self, c: Cable) -> bool
        ensures { let rows = first_rows self.now.sheet.now self.now.count in
            result ≡ either (cabled rows c.near.switch c.near.port) (cabled rows c.far.switch c.far.port) }
    {
        self.is_end_used(c.near) || self.is_end_used(c.far)
    }

    // The sheet's next row: both ends use a port from now on.
    #[tactic(auto, using(crate::proofs::Marking::cabled_snoc))]
    pub fn use_cable(&mut self, c: Cable)
        requires range { EndInRange 64 c.near × EndInRange 64 c.far }
        requires room { self.old.count < 512 }
        requires next { first_rows self.old.sheet.now (self.old.count + 1)
            ≡ first_rows self.old.sheet.now self.old.count ++ (c ∷ []) }
        ensures counted { self.new.count ≡ self.old.count + 1 }
        ensures same { (self.new.sheet.now ≡ self.old.sheet.now) × (self.new.switches ≡ self.old.switches) }
    {
        use_port(&mut self.used, c.near);
        use_port(&mut self.used, c.far);
        self.count += 1;
    }
}
