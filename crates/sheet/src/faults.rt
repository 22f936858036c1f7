// The fault list: whether a cable is still live.
ghost use Rattle.std.specs.Prelude.{◌≡◌, ◌<◌, length};
ghost use Rattle.sheet.specs.Cables.{carries};
ghost use Rattle.sheet.specs.Faults.{fault_at, faults_of, live};

use crate::cables::Cable;
use crate::numbers::{Port, Switch};
use crate::records::{FAULT, byte_at};
use crate::starts::Starts;

// Switch and port of the fault whose kind byte stands at a position.
pub(crate) fn fault_at(faults: &[u8], at: usize) -> (Switch, Port)
    requires { at < length faults.now }
    ensures switch { result.0.0 ≡ (fault_at faults.now at).switch }
    ensures port { result.1.0 ≡ (fault_at faults.now at).port }
{
    (
        byte_at(faults, at + 1).into(),
        byte_at(faults, at + 2).into(),
    )
}

// Whether that fault names a port that carries an end of the cable.
fn names(faults: &[u8], at: usize, c: Cable) -> bool
    requires { at < length faults.now }
    ensures { result ≡ carries (fault_at faults.now at).switch (fault_at faults.now at).port c }
{
    let (switch, port) = fault_at(faults, at);
    c.carries(switch, port)
}

// A cable is live if no fault names a port that carries one of its ends. The first that does settles it. Cable and fault list are two
// parameters: the list is the same for all cables.
#[tactic(auto, using(crate::proofs::Faulting::asks_next), unfolding(crate::specs::Faults::live))]
pub fn is_live(c: Cable, faults: &[u8]) -> bool
    ensures { result ≡ live (faults_of faults.now) c }
{
    for at in Starts::new(faults, FAULT, 0) {
        if names(faults, at, c) {
            return false;
        }
    }
    true
}
