// The faulty row as one number, for a host program in C; the crate `sheet_c` exports it.
ghost use Rattle.std.specs.Prelude.{◌≡◌, ◌≤◌};
ghost use Rattle.sheet.specs.FaultyRow.{packed, part_number, faulty_part};

use crate::check::{Lists, Part};

// The list is 0 or 1, as C wants it; start and length are cast where they are seen to be small. The largest number where a start or a
// length does not fit, which never comes: the first wrong record stands among the first 513.
fn pack(list: u64, start: usize, size: usize) -> u64
    requires { list ≤ 1 }
    ensures { result ≡ packed list start size }
{
    if start < 65536 && size < 65536 {
        4294967296 * list + 65536 * start as u64 + size as u64
    } else {
        u64::MAX
    }
}

// C passes two slices.
pub fn sheet_faulty_row<'a>(sheet: &'a [u8], faults: &'a [u8]) -> u64
    ensures { result ≡ part_number (faulty_part sheet.now faults.now) }
{
    let lists = Lists { sheet, faults };
    match lists.faulty_part() {
        Part::OfSheet(start, size) => pack(0, start, size),
        Part::OfFaults(start, size) => pack(1, start, size),
    }
}
