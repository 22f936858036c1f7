// The published choice: the first live port after the current one in the port order, the parent excepted; otherwise the parent.
ghost use Rattle.std.specs.Prelude.{◌≡◌, ◌<◌, drop, not, eqb};
ghost use Rattle.sheet.specs.Lists.{both};
ghost use Rattle.sheet.specs.Faults.{live, faults_of};
ghost use Rattle.switch.specs.Choice.{after_current, first_open, choose, by_parent, outcome_of, Storable};

use crate::cell::Cell;
use crate::ports::Ports;
use sheet::cables::Cable;
use sheet::faults::is_live;
use sheet::numbers::{NO_PORT, Port, Position};

// The packet leaves by a port, with the switch's current port from then on.
#[derive(Clone, Copy, Debug, PartialEq, Eq)]
pub struct Leave {
    pub port: Port,
    pub current: Port,
}

// Whether the choice may take a cable: it is live, and its port is not the parent. The parent is asked first, since the faults
// take longer.
fn is_open(c: Cable, faults: &[u8], parent: Port) -> bool
    ensures { result ≡ both (live (faults_of faults.now) c) (not (eqb c.near.port parent.0)) }
{
    if Port::from(c.near.port) == parent {
        return false;
    }
    is_live(c, faults)
}

// By the parent, and the current port stays; where the parent is 0, nowhere.
fn by_parent(cell: Cell) -> Option<Leave>
    ensures { outcome_of result ≡ by_parent cell.parent.0 cell.current.0 }
{
    if cell.parent == NO_PORT {
        return None;
    }
    Some(Leave {
        port: cell.parent,
        current: cell.current,
    })
}

impl Ports<'_> {
    // The choice among the cables from a position on. That the current port fits a byte is asked here, and is no fact of the type: a Cell
    // that a caller makes may hold any ports.
    #[tactic(auto, using(crate::proofs::Walking::open_cables))]
    fn first_open(&self, cell: Cell, from: Position) -> Option<Leave>
        requires { cell.current.0 < 256 }
        ensures exact { outcome_of result ≡ first_open (faults_of self.now.faults.now) cell.parent.0 cell.current.0
            (drop from.0 self.now.order) }
        ensures storable { Storable result }
    {
        for i in from.0..self.order.len().0 {
            let c = self.order.cable(Position(i));
            if is_open(c, self.faults, cell.parent) {
                let port = Port::from(c.near.port);
                return Some(Leave {
                    port,
                    current: port,
                });
            }
        }
        by_parent(cell)
    }

    // The position after the current port; the front where there is none.
    fn after_current(&self, current: Port) -> Position
        ensures { drop result.0 self.now.order ≡ after_current current.0 self.now.order }
    {
        if current == NO_PORT {
            return Position(0);
        }
        let at = self.order.position(current);
        Position(at.0 + 1)
    }

    // The bound as for `first_open`.
    #[tactic(auto, unfolding(crate::specs::Choice::choose))]
    pub(crate) fn choose(&self, cell: Cell) -> Option<Leave>
        requires { cell.current.0 < 256 }
        ensures exact { outcome_of result ≡ choose (faults_of self.now.faults.now) cell.parent.0 cell.current.0 self.now.order }
        ensures storable { Storable result }
    {
        self.first_open(cell, self.after_current(cell.current))
    }
}
