// Three kinds of number that must not be taken for one another: three types, as the outline wants them, and not one with a parameter, which
// would let through what is written for all of them. Each holds any number that an agent may pass.
ghost use Rattle.std.specs.Prelude.{◌≡◌};

// A switch, 1 to n on a sheet of n switches.
#[derive(Clone, Copy, Debug, PartialEq, Eq, PartialOrd, Ord)]
pub struct Switch(pub u64);

// A port of a switch, 1 to 48.
#[derive(Clone, Copy, Debug, PartialEq, Eq, PartialOrd, Ord)]
pub struct Port(pub u64);

// In a tag's bytes and in an agent's numbers 0 is no port, so no Option stands for it.
pub const NO_PORT: Port = Port(0);

// A place in a switch's port order, counted from 0.
#[derive(Clone, Copy, Debug, PartialEq, Eq, PartialOrd, Ord)]
pub struct Position(pub u64);

impl From<u8> for Switch {
    ghost from_gives = { λ byte v. v.0 ≡ byte };

    fn from(byte: u8) -> Switch {
        Switch(u64::from(byte))
    }
}

impl From<u8> for Port {
    ghost from_gives = { λ byte p. p.0 ≡ byte };

    fn from(byte: u8) -> Port {
        Port(u64::from(byte))
    }
}
