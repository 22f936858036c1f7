// Check of a sheet, and of a fault list against a sheet; and the row that is wrong.
ghost use Rattle.std.specs.Prelude.{◌≡◌};
ghost use Rattle.sheet.specs.Cables.{switches_of};
ghost use Rattle.sheet.specs.Refusals.{answer_of, sheet_answer, list_answer};
ghost use Rattle.sheet.specs.FaultyRow.{IsPart, faulty_part};

use crate::reading::{read_faults, read_sheet};
use crate::records::byte_at;
use crate::refusals::Refusal;
use crate::used::Rows;

// How many switches and cables an accepted sheet has.
#[derive(Clone, Copy, Debug, PartialEq, Eq)]
pub struct Accepted {
    pub switches: u64,
    pub cables: u64,
}

// What an accepted sheet's check answers. The count is cast: between usize and u64 there is no `From`, and both have 64 bits.
fn accept(sheet: &[u8], cables: usize) -> Accepted
    ensures switches { result.switches ≡ switches_of sheet.now }
    ensures cables { result.cables ≡ cables }
{
    Accepted {
        switches: byte_at(sheet, 1).into(),
        cables: cables as u64,
    }
}

#[tactic(auto, unfolding(crate::specs::Refusals::sheet_answer))]
pub fn check_sheet(sheet: &[u8]) -> Result<Accepted, Refusal>
    ensures { answer_of result ≡ sheet_answer sheet.now }
{
    let mut rows = Rows::new(sheet);
    read_sheet(&mut rows)?;
    Ok(accept(sheet, rows.count))
}

// Where the first wrong record stands: its start and its length, two numbers, as a slice and `pack` take them. Where nothing is wrong it is
// the empty part at the sheet's front, and no None: the outline says so.
#[derive(Clone, Copy, Debug, PartialEq, Eq)]
pub enum Part {
    OfSheet(usize, usize),
    OfFaults(usize, usize),
}

// The bytes of a sheet and of a fault list.
#[derive(Clone, Copy)]
pub struct Lists<'a> {
    pub sheet: &'a [u8],
    pub faults: &'a [u8],
}

impl<'a> Lists<'a> {
    // The sheet, then the fault list against it. The outline wants `let .. else` for each check, and no `?`. By the hint it stays a call, whose
    // room on the stack is free again for the rest of a step.
    #[inline(never)]
    #[tactic(auto, unfolding(crate::specs::Refusals::list_answer))]
    pub fn check_faults(&self) -> Result<Accepted, Refusal>
        ensures { answer_of result ≡ list_answer self.now.sheet.now self.now.faults.now }
    {
        let mut rows = Rows::new(self.sheet);
        let read = read_sheet(&mut rows);
        let Ok(()) = read else {
            return Err(read.unwrap_err().into());
        };
        let list = read_faults(self.faults, &rows);
        let Ok(_) = list else {
            return Err(list.unwrap_err().into());
        };
        Ok(accept(self.sheet, rows.count))
    }

    // The two readings of `check_faults`, told by place and not by number. One function for both would answer which list was wrong and
    // where, and each would take that apart again.
    #[tactic(auto, unfolding(crate::specs::FaultyRow::faulty_part))]
    pub fn faulty_part(&self) -> Part
        ensures { result ≡ faulty_part self.now.sheet.now self.now.faults.now }
    {
        let mut rows = Rows::new(self.sheet);
        if let Err(first) = read_sheet(&mut rows) {
            return Part::OfSheet(first.start, first.size);
        }
        if let Err(first) = read_faults(self.faults, &rows) {
            return Part::OfFaults(first.start, first.size);
        }
        Part::OfSheet(0, 0)
    }

    // The first wrong record as it stands in the caller's bytes.
    #[tactic(auto, using(crate::proofs::Parts::inside_sheet, crate::proofs::Parts::inside_faults))]
    pub fn faulty_row(&self) -> &'a [u8]
        ensures { IsPart self.now.sheet self.now.faults (faulty_part self.now.sheet.now self.now.faults.now) result }
    {
        match self.faulty_part() {
            Part::OfSheet(start, size) => &self.sheet[start..start + size],
            Part::OfFaults(start, size) => &self.faults[start..start + size],
        }
    }
}
