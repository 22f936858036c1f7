// The door for C: the step on bare numbers and byte slices, its answer as one number; the crate `switch_c` exports it.
ghost use Rattle.std.specs.Prelude.{◌≡◌};
ghost use Rattle.switch.specs.Answers.{paper_of, door_number};
ghost use Rattle.switch.specs.Step.{stepped};

use crate::step::{Move, step};
use sheet::check::Lists;
use sheet::numbers::{Port, Switch};
use sheet::refusals::Refusal;

// The weight of an end in the number: a port or a refusal number stays far below it.
const END: u64 = 4294967296;

// The answer as one number, as C takes it: the end's weight, and the port or the refusal number.
fn number_of(answer: Result<Move, Refusal>) -> u64
    ensures { result ≡ door_number (paper_of answer) }
{
    match answer {
        Ok(Move::Leaves(port, _)) => port.0,
        Ok(Move::Delivered) => END,
        Ok(Move::Nowhere) => 2 * END,
        Err(refusal) => 3 * END + refusal.number(),
    }
}

// One step for a host program in C, which passes two slices and three numbers. All 64-bit numbers are answered: a number past the switches
// is refused, and is no other switch.
pub fn switch_step<'a>(
    present: u64,
    arrival: u64,
    destination: u64,
    sheet: &'a [u8],
    faults: &'a [u8],
    tag: &mut [u8],
) -> u64
    ensures answer { result ≡ door_number (stepped sheet.now faults.now tag.old
        present arrival destination).paper }
    ensures bytes { tag.new
        ≡ (stepped sheet.now faults.now tag.old present arrival destination).tag }
{
    let lists = Lists { sheet, faults };
    number_of(step(
        &lists,
        tag,
        Switch(present),
        Port(arrival),
        Switch(destination),
    ))
}
