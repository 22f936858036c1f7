// Refusals 6 to 10.
ghost use Rattle.std.specs.Prelude.{◌≡◌, ◌*◌, ◌≤◌, ◌↔◌, IsTrue, All, length, eqb};
ghost use Rattle.sheet.specs.Lists.{both, either};
ghost use Rattle.sheet.specs.Order.{is_cabled, is_live};
ghost use Rattle.switch.specs.Checks.{rule, check_of, switches_rule, tag_rule, arrival_rule, fresh_rule, cell_rule};
ghost use Rattle.sheet.specs.Refusals.{refusal_number};

use crate::cell::Cell;
use crate::ports::Ports;
use sheet::numbers::{NO_PORT, Port, Switch};
use sheet::ranges::are_within;
use sheet::refusals::Refusal;

// A rule that holds, or its refusal.
pub fn rule(refusal: Refusal, holds: bool) -> Result<(), Refusal>
    ensures { check_of result ≡ rule (refusal_number refusal) holds }
{
    if holds { Ok(()) } else { Err(refusal) }
}

// 6: destination or present switch outside 1 to n.
pub fn check_switches(n: u64, v: Switch, d: Switch) -> Result<(), Refusal>
    ensures { check_of result ≡ switches_rule n v.0 d.0 }
{
    rule(Refusal::OffSheet, are_within(n, v.0, d.0))
}

// 7: tag shorter than 2n bytes. Halving its length instead of doubling n leaves nothing to wrap. The walk's check of the trace is as short,
// and stands apart since each is a line of the outline with its rule: one for both would take the 2 and the 4 out of them. A length is cast
// here and n below: between usize and u64 there is no `From`, and both have 64 bits.
pub fn check_tag(n: u64, tag: &[u8]) -> Result<(), Refusal>
    ensures { check_of result ≡ tag_rule n tag.now }
{
    rule(Refusal::NoRoom, n <= tag.len() as u64 / 2)
}

// Whether all bytes are 0.
fn is_blank(bytes: &[u8]) -> bool
    ensures { IsTrue result ↔ All (λ byte. byte ≡ 0) bytes.now }
{
    bytes.iter().all(|&byte| byte == 0)
}

// 9: arrival port 0 and any of the first 2n tag bytes not 0. A packet from the host brings a blank tag; of any other nothing is asked.
#[tactic(auto, using(crate::proofs::Blank::none_marked, crate::proofs::Blank::all_zero))]
pub(crate) fn check_fresh(n: u64, tag: &[u8], arrival: Port) -> Result<(), Refusal>
    requires { 2 * n ≤ length tag.now }
    ensures { check_of result ≡ fresh_rule n tag.now arrival.0 }
{
    let is_fresh = arrival != NO_PORT || is_blank(&tag[..2 * n as usize]);
    rule(Refusal::MarkedTag, is_fresh)
}

impl Ports<'_> {
    // No port, or a live one.
    fn is_none_or_live(&self, p: Port) -> bool
        ensures { result ≡ either (eqb p.0 0) (is_live self.now.faults.now p.0 self.now.order) }
    {
        p == NO_PORT || self.order.is_live(p, self.faults)
    }

    // 8: arrival port is not 0 and is not a cabled port of this switch, or its cable is dead.
    pub(crate) fn check_arrival(&self, arrival: Port) -> Result<(), Refusal>
        ensures { check_of result ≡ arrival_rule self.now.order self.now.faults.now arrival.0 }
    {
        rule(Refusal::ArrivalPort, self.is_none_or_live(arrival))
    }

    // No current port; or it is cabled here, and the parent is 0 or live. A dead current port is no fault.
    fn is_sane(&self, cell: Cell) -> bool
        ensures { result ≡ either (eqb cell.current.0 0)
            (both (is_cabled cell.current.0 self.now.order)
            (either (eqb cell.parent.0 0)
            (is_live self.now.faults.now cell.parent.0 self.now.order))) }
    {
        cell.current == NO_PORT
            || self.order.is_cabled(cell.current) && self.is_none_or_live(cell.parent)
    }

    // 10: current port not 0, and either it is not cabled here, or the parent is not 0 and is uncabled here or dead.
    pub(crate) fn check_cell(&self, cell: Cell) -> Result<(), Refusal>
        ensures { check_of result ≡ cell_rule self.now.order self.now.faults.now cell }
    {
        rule(Refusal::CellPorts, self.is_sane(cell))
    }
}
