// Cable rows: the six bytes of a row as the bench writes them.
ghost use Rattle.std.specs.Prelude.{◌≡◌};
ghost use Rattle.sheet.specs.Cables.{turned, is_at, carries, end_at, cable_at};

use crate::numbers::{Port, Switch};
use crate::records::byte_at;

// One end of a cable. By default that of no cable, all 0.
#[derive(Clone, Copy, Debug, Default, PartialEq, Eq)]
pub struct End {
    pub switch: u8,
    pub port: u8,
    pub preference: u8,
}

// A cable, written from one of its ends.
#[derive(Clone, Copy, Debug, Default, PartialEq, Eq)]
pub struct Cable {
    pub near: End,
    pub far: End,
}

// A switch and a port go side by side through `is_at`, `carries` and `is_used` of the rows: a struct for them would be made at each call.
impl End {
    pub(crate) fn is_at(self, v: Switch, p: Port) -> bool
        ensures { result ≡ is_at v.0 p.0 self }
    {
        Switch::from(self.switch) == v && Port::from(self.port) == p
    }
}

impl Cable {
    // The same cable, written from its other end.
    pub(crate) fn turned(self) -> Cable
        ensures { result ≡ turned self }
    {
        Cable {
            near: self.far,
            far: self.near,
        }
    }

    // Whether this port of this switch carries an end of the cable.
    pub(crate) fn carries(self, v: Switch, p: Port) -> bool
        ensures { result ≡ carries v.0 p.0 self }
    {
        self.near.is_at(v, p) || self.far.is_at(v, p)
    }
}

// Past the end of the bytes it is no end, and below no cable, and no None: as `byte_at` they answer at every position.
pub(crate) fn end_at(bytes: &[u8], at: usize) -> End
    ensures { result ≡ end_at bytes.now at }
{
    if bytes.len() <= at {
        return End::default();
    }
    End {
        switch: byte_at(bytes, at),
        port: byte_at(bytes, at + 1),
        preference: byte_at(bytes, at + 2),
    }
}

// The cable of the row whose kind byte stands at a position. A whole row is read at once, without a test for the end at each byte, which a
// loop over rows would feel.
pub(crate) fn cable_at(bytes: &[u8], at: usize) -> Cable
    ensures { result ≡ cable_at bytes.now at }
{
    if bytes.len() <= at {
        return Cable::default();
    }
    if let Some(&[v, p, a, w, q, b]) = bytes[at + 1..].first_chunk::<6>() {
        return Cable {
            near: End {
                switch: v,
                port: p,
                preference: a,
            },
            far: End {
                switch: w,
                port: q,
                preference: b,
            },
        };
    }
    Cable {
        near: end_at(bytes, at + 1),
        far: end_at(bytes, at + 4),
    }
}
