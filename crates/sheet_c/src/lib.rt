// What a host program in C links of `sheet`: the faulty row. It only passes the library's function on: the kit builds a crate as a library
// or as a static library.
#![tactic(auto)]

ghost use Rattle.std.specs.Prelude.{◌≡◌};
ghost use Rattle.sheet.specs.FaultyRow.{part_number, faulty_part};

#[unsafe(no_mangle)]
pub extern "C" fn sheet_faulty_row(sheet: &[u8], faults: &[u8]) -> u64
    ensures { result ≡ part_number (faulty_part sheet.now faults.now) }
{
    sheet::door::sheet_faulty_row(sheet, faults)
}
