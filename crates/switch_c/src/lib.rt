// What a host program in C links of `switch`: one step. It only passes the library's function on: the kit builds a crate as a library or as
// a static library.
#![tactic(auto)]

ghost use Rattle.std.specs.Prelude.{◌≡◌};
ghost use Rattle.switch.specs.Answers.{door_number};
ghost use Rattle.switch.specs.Step.{stepped};

#[unsafe(no_mangle)]
pub extern "C" fn switch_step(
    present: u64,
    arrival: u64,
    destination: u64,
    sheet: &[u8],
    faults: &[u8],
    tag: &mut [u8],
) -> u64
    ensures answer { result
        ≡ door_number (stepped sheet.now faults.now tag.old present arrival destination).paper }
    ensures bytes { tag.new
        ≡ (stepped sheet.now faults.now tag.old present arrival destination).tag }
{
    switch::door::switch_step(present, arrival, destination, sheet, faults, tag)
}
