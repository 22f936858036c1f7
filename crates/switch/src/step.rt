// One step: the checks, then the published choice.
ghost use Rattle.std.specs.Prelude.{◌≡◌};
ghost use Rattle.switch.specs.Step.{Ready, told_move, told, advanced, stepped};

use crate::cell::Cell;
use crate::checks::{check_fresh, check_switches, check_tag};
use crate::choice::Leave;
use crate::ports::Ports;
use sheet::check::Lists;
use sheet::numbers::{Port, Switch};
use sheet::order::{FarEnd, Places, port_order};
use sheet::refusals::Refusal;

// How a step ends that has passed the checks.
#[derive(Clone, Copy, Debug, PartialEq, Eq)]
pub enum Move {
    // By this port, over its cable to the far end.
    Leaves(Port, FarEnd),
    Delivered,
    Nowhere,
}

// The step after the checks. Rules 1 to 4 of the step: at the destination nothing is read or written; else the cell takes its parent where
// it has no current port, and the choice says by which port the packet leaves and which port is current from then on.
#[tactic(auto, unfolding(crate::specs::Step::advanced))]
pub fn advance(ports: &Ports<'_>, tag: &mut [u8], v: Switch, arrival: Port, d: Switch) -> Move
    requires { Ready tag.old v.0 arrival.0 }
    ensures { told_move result tag.new
        ≡ advanced ports.now.order ports.now.faults.now tag.old v.0 arrival.0 d.0 }
{
    if v == d {
        return Move::Delivered;
    }
    let found = Cell::read(tag, v);
    let cell = found.entered(arrival);
    let Some(Leave { port, current }) = ports.choose(cell) else {
        return Move::Nowhere;
    };
    let left = cell.left_by(current);
    left.write(tag, v);
    Move::Leaves(port, ports.order.far_end(port))
}

// One step, from the bytes: refusals 1 to 5, then 6 to 10, then the step itself. Each check's refusal is passed on as it is, by `let ..
// else` as the outline wants it, and not by `?`. Present switch, arrival port and destination stay three parameters, as the outline lists
// them; the tag beside them is lent to be written.
#[tactic(auto, using(sheet::proofs::Places::placed_order), unfolding(crate::specs::Step::stepped, crate::specs::Checks::checks))]
pub fn step(
    lists: &Lists<'_>,
    tag: &mut [u8],
    v: Switch,
    arrival: Port,
    d: Switch,
) -> Result<Move, Refusal>
    ensures { told result tag.new
        ≡ stepped lists.now.sheet.now lists.now.faults.now tag.old v.0 arrival.0 d.0 }
{
    let checked = lists.check_faults();
    let Ok(accepted) = checked else {
        return Err(checked.unwrap_err());
    };
    let n = accepted.switches;
    let switches = check_switches(n, v, d);
    let Ok(()) = switches else {
        return Err(switches.unwrap_err());
    };
    let long = check_tag(n, tag);
    let Ok(()) = long else {
        return Err(long.unwrap_err());
    };
    let mut places = Places::new();
    port_order(lists.sheet, v, &mut places);
    let ports = Ports::new(*lists, places.as_slice());
    let arrived = ports.check_arrival(arrival);
    let Ok(()) = arrived else {
        return Err(arrived.unwrap_err());
    };
    let fresh = check_fresh(n, tag, arrival);
    let Ok(()) = fresh else {
        return Err(fresh.unwrap_err());
    };
    let known = ports.check_cell(Cell::read(tag, v));
    let Ok(()) = known else {
        return Err(known.unwrap_err());
    };
    Ok(advance(&ports, tag, v, arrival, d))
}
