// A packet's walk from its source to its end.
ghost use Rattle.std.specs.Prelude.{◌≡◌, ℕ, ◌*◌, take, replicate};
ghost use Rattle.sheet.specs.Cables.{switches_of};
ghost use Rattle.sheet.specs.Cabling.{order_at};
ghost use Rattle.sheet.specs.Refusals.{refusal_number};
ghost use Rattle.switch.specs.Checks.{check_of};
ghost use Rattle.switch.specs.Step.{Ready, told_move, advanced};
ghost use Rattle.walk.specs.Walk.{paper, ended, paper_of, trace_rule, result_of, Walks};
ghost use Rattle.walk.specs.Condition3.{Reachable, Premises, hops_in, Condition3};

use sheet::check::Lists;
use sheet::numbers::{NO_PORT, Port, Switch};
use sheet::order::{Places, port_order};
use sheet::refusals::Refusal;
use switch::checks::{check_switches, check_tag, rule};
use switch::ports::Ports;
use switch::step::{Move, advance};

// How a walk ends. A refusal is told by its number, as the outline names this answer.
#[derive(Clone, Copy, Debug, PartialEq, Eq)]
pub enum End {
    Delivered,
    None,
    Refused(u64),
}

// The end, the switch where it came, and the number of hops, which says how much of the lent trace is the walk's. A refusal has switch 0
// and no hops, as the outline wants it of each answer.
#[derive(Clone, Copy, Debug, PartialEq, Eq)]
pub struct Walked {
    pub end: End,
    pub switch: Switch,
    pub hops: u64,
}

// An end at a switch after so many hops. The count is an index's usize, and cast: there is no `From` to u64, which has 64 bits too.
fn ended(end: End, switch: Switch, hops: usize) -> Walked
    ensures { paper_of result ≡ ended end switch.0 hops }
{
    Walked {
        end,
        switch,
        hops: hops as u64,
    }
}

fn refused(refusal: Refusal) -> Walked
    ensures { paper_of result ≡ paper 3 0 0 (refusal_number refusal) }
{
    ended(End::Refused(refusal.number()), Switch(0), 0)
}

// 7: trace shorter than 4 bytes for each cable. A quarter of its length instead of 4 times the cables leaves nothing to wrap. The cast is
// as in `check_tag`, from which it stands apart: each is a line of the outline, here with its 4 for each cable.
fn check_trace(cables: u64, trace: &[u8]) -> Result<(), Refusal>
    ensures { check_of result ≡ trace_rule cables trace.now }
{
    rule(Refusal::NoRoom, cables <= trace.len() as u64 / 4)
}

// The step of the switch where the packet is: one pass over the rows for its port order, and the choice.
#[tactic(auto, using(sheet::proofs::Places::placed_order))]
fn move_on(
    lists: &Lists<'_>,
    tag: &mut [u8],
    at: Switch,
    arrival: Port,
    destination: Switch,
) -> Move
    requires { Ready tag.old at.0 arrival.0 }
    ensures { told_move result tag.new
        ≡ advanced (order_at lists.now.sheet.now at.0) lists.now.faults.now tag.old at.0 arrival.0 destination.0 }
{
    let mut places = Places::new();
    port_order(lists.sheet, at, &mut places);
    let ports = Ports::new(*lists, places.as_slice());
    advance(&ports, tag, at, arrival, destination)
}

// Carries a packet with a tag of zeros from the source, hop by hop, until a step does not forward it.
fn carry(
    lists: &Lists<'_>,
    tag: &mut [u8],
    trace: &mut [u8],
    source: Switch,
    destination: Switch,
) -> Walked
    requires premises { Premises lists.now.sheet.now lists.now.faults.now tag.old trace.old source.0 destination.0 }
    requires tag_value { take (2 * switches_of lists.now.sheet.now) tag.old ≡ replicate (2 * switches_of lists.now.sheet.now) 0 }
    ensures { Walks lists.now.sheet.now lists.now.faults.now tag.old trace.old source.0 destination.0
        (result_of result tag.new trace.new) }
{
    let mut at = source;
    let mut arrival = NO_PORT;
    let mut hops: usize = 0;
    // Hops are counted here since the answer holds the count. What ends the loop is a step, and no end of a list: a `for` over the hops
    // would need an answer after it that never comes.
    loop {
        let (port, far) = match move_on(lists, tag, at, arrival, destination) {
            Move::Leaves(port, far) => (port, far),
            Move::Delivered => return ended(End::Delivered, at, hops),
            Move::Nowhere => return ended(End::None, at, hops),
        };
        // casts that are proved to lose nothing: `try_from` would be followed by an `unwrap`
        trace[2 * hops] = at.0 as u8;
        trace[2 * hops + 1] = port.0 as u8;
        at = far.switch;
        arrival = far.port;
        hops += 1;
    }
}

// The walk. It checks sheet, fault list, switches and room, and then hops; a refusal writes nothing, and is passed on by `let .. else`, as
// the outline wants it, and not by `?`. Source and destination stay two parameters, as an ask names them, and tag and trace two buffers,
// each with a length of its own to be checked. Its first three checks are those of `step`, where the outline names the form too: one
// function for both would take it out of either. The n of an accepted sheet is at most 64, so that its cast loses nothing.
#[tactic(auto, using(crate::proofs::Answering::refused_walks), unfolding(crate::specs::Walk::walk_checks))]
pub fn walk(
    lists: &Lists<'_>,
    tag: &mut [u8],
    trace: &mut [u8],
    source: Switch,
    destination: Switch,
) -> Walked
    ensures walks { Walks lists.now.sheet.now lists.now.faults.now tag.old trace.old source.0 destination.0
        (result_of result tag.new trace.new) }
    ensures condition3 { Premises lists.now.sheet.now lists.now.faults.now tag.old trace.old source.0
        destination.0 → (m : ℕ) → Reachable lists.now.sheet.now lists.now.faults.now source.0 m
        → Condition3 lists.now.sheet.now lists.now.faults.now source.0 destination.0 m (paper_of result)
        (hops_in result.hops trace.new) }
{
    let checked = lists.check_faults();
    let Ok(accepted) = checked else {
        return refused(checked.unwrap_err());
    };
    let n = accepted.switches;
    let switches = check_switches(n, source, destination);
    let Ok(()) = switches else {
        return refused(switches.unwrap_err());
    };
    let long = check_tag(n, tag);
    let Ok(()) = long else {
        return refused(long.unwrap_err());
    };
    let room = check_trace(accepted.cables, trace);
    let Ok(()) = room else {
        return refused(room.unwrap_err());
    };
    tag[..2 * n as usize].fill(0);
    carry(lists, tag, trace, source, destination)
}
