// The tag cell of one switch: two bytes of the tag, parent port and then current port. Only `read` and `write` know where a cell stands.
ghost use Rattle.std.specs.Prelude.{◌≡◌};
ghost use Rattle.switch.specs.Cell.{CellInside, CellFits, cell_of, with_cell, entered, left_by};

use sheet::numbers::{NO_PORT, Port, Switch};

// The port by which the packet first came in, and the port by which it last left; 0 is no port.
#[derive(Clone, Copy, Debug, PartialEq, Eq)]
pub struct Cell {
    pub parent: Port,
    pub current: Port,
}

impl Cell {
    // That the two bytes are inside the tag is asked of each caller: the tag is the agent's, and no type of ours. The casts here and in
    // `write` are proved to lose nothing; `try_from` would be followed by an `unwrap`.
    pub(crate) fn read(tag: &[u8], v: Switch) -> Cell
        requires { CellInside tag.now v.0 }
        ensures exact { result ≡ cell_of tag.now v.0 }
        ensures bytes { CellFits result }
    {
        let first = 2 * (v.0 as usize - 1);
        Cell {
            parent: tag[first].into(),
            current: tag[first + 1].into(),
        }
    }

    // That the ports fit a byte is asked too: `entered` and `left_by` take any.
    pub(crate) fn write(self, tag: &mut [u8], v: Switch)
        requires cell_inside { CellInside tag.old v.0 }
        requires cell_fits { CellFits self }
        ensures { tag.new ≡ with_cell tag.old v.0 self }
    {
        let first = 2 * (v.0 as usize - 1);
        tag[first] = self.parent.0 as u8;
        tag[first + 1] = self.current.0 as u8;
    }

    // A switch that the packet has not left yet, or has left only by its parent, takes the arrival port for its parent.
    pub fn entered(self, arrival: Port) -> Cell
        ensures { result ≡ entered self arrival.0 }
    {
        let is_new = self.current == NO_PORT;
        Cell {
            parent: if is_new { arrival } else { self.parent },
            ..self
        }
    }

    // The cell after the packet left by a port that is its current port from now on.
    pub fn left_by(self, port: Port) -> Cell
        ensures { result ≡ left_by self port.0 }
    {
        Cell {
            current: port,
            ..self
        }
    }
}
