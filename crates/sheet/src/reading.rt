// The sheet and the fault list, read from the front, record by record.
ghost use Rattle.std.specs.Prelude.{◌≡◌, length, IfOk};
ghost use Rattle.sheet.specs.Records.{row, fault};
ghost use Rattle.sheet.specs.Cables.{Socket, row_rule, cable_at, sheet_reading};
ghost use Rattle.sheet.specs.Faults.{fault_at, fault_rule, fault_reading};
ghost use Rattle.sheet.specs.Used.{first_rows};
ghost use Rattle.sheet.specs.Told.{told_of, reading_of};
ghost use Rattle.sheet.specs.declared.cables.Cable.{Cable as Row};
ghost use Rattle.sheet.specs.declared.rules.Rule.TheVariants.{SheetForm, FaultForm};

use crate::cables::{Cable, cable_at};
use crate::faults::fault_at;
use crate::listing::{Layout, RecordList, Wrong, next_record, read_list};
use crate::ranges::{are_within, is_within};
use crate::records::{FAULT, FORMS, FRONT, MOST_RECORDS, ROW, byte_at};
use crate::rules::Rule;
use crate::used::Rows;

// The rows begin after the sheet's front.
const ROWS: Layout = Layout {
    place: ROW,
    form: Rule::SheetForm,
    from: 1 + FORMS[1].body,
    most: MOST_RECORDS,
};

const FAULTS: Layout = Layout {
    place: FAULT,
    form: Rule::FaultForm,
    from: 0,
    most: MOST_RECORDS,
};

// A row held to the rules and to the rows before it.
#[tactic(auto, unfolding(crate::specs::Cables::row_rule))]
fn judge_row(c: Cable, rows: &Rows) -> Result<(), Rule>
    ensures { result ≡ row_rule rows.now.switches (first_rows rows.now.sheet.now rows.now.count) c }
{
    if !are_within(rows.switches, c.near.switch.into(), c.far.switch.into()) {
        return Err(Rule::SwitchRange);
    }
    if !are_within(48, c.near.port.into(), c.far.port.into()) {
        return Err(Rule::PortRange);
    }
    if c.near.switch == c.far.switch {
        return Err(Rule::SameSwitch);
    }
    if rows.is_either_used(c) {
        return Err(Rule::PortUsed);
    }
    Ok(())
}

impl<'a> RecordList for Rows<'a> {
    ghost Item = { Row };

    ghost read = { cable_at };

    ghost check = { λ rows. row_rule rows.switches };

    ghost bytes = { λ rows. rows.sheet.now };

    ghost taken = { λ rows. rows.count };

    ghost layout = { record { place = row; form = SheetForm; from = 2; most = 512 } };

    fn layout(&self) -> Layout {
        ROWS
    }

    fn bytes(&self) -> &[u8] {
        self.sheet
    }

    // The hint puts the body into the reading loop before the loop is simplified, so that a verdict is acted on where it is found, and not
    // carried to a test at the loop's end (docs/BENCHMARKS.md).
    #[inline(always)]
    #[tactic(auto, using(crate::proofs::Rows::row_fine))]
    fn take(&mut self, start: usize) -> Result<(), Rule> {
        let c = cable_at(self.sheet, start);
        judge_row(c, self)?;
        self.use_cable(c);
        Ok(())
    }
}

// The faults of a list that were read, on a sheet with these rows.
#[derive(Drop)]
struct Faults<'a> {
    faults: &'a [u8],
    count: usize,
    rows: &'a Rows<'a>,
}

impl<'a> RecordList for Faults<'a> {
    ghost Item = { Socket };

    ghost read = { fault_at };

    ghost check = { λ list. fault_rule (first_rows list.rows.now.sheet.now list.rows.now.count) };

    ghost bytes = { λ list. list.faults.now };

    ghost taken = { λ list. list.count };

    ghost layout = { record { place = fault; form = FaultForm; from = 0; most = 512 } };

    fn layout(&self) -> Layout {
        FAULTS
    }

    fn bytes(&self) -> &[u8] {
        self.faults
    }

    #[tactic(auto, unfolding(crate::specs::Faults::fault_rule))]
    fn take(&mut self, start: usize) -> Result<(), Rule> {
        let (v, p) = fault_at(self.faults, start);
        if !self.rows.is_used(v, p) {
            return Err(Rule::FaultUncabled);
        }
        self.count += 1;
        Ok(())
    }
}

// The sheet: its front, then the cable rows. The rows are lent and not returned, since a table that moves stands on the stack twice.
#[tactic(auto, using(crate::proofs::Listed::front_size), unfolding(crate::specs::Cables::sheet_reading))]
pub fn read_sheet(rows: &mut Rows) -> Result<(), Wrong>
    requires { rows.old.count ≡ 0 }
    ensures told { reading_of (λ _. first_rows rows.new.sheet.now rows.new.count) result ≡ sheet_reading rows.old.sheet.now }
    ensures counted { IfOk result (λ _. length (first_rows rows.new.sheet.now rows.new.count) ≡ rows.new.count) }
{
    let Some(size) = next_record(rows.sheet, 0, FRONT, Rule::SheetForm)? else {
        return Err(Wrong {
            rule: Rule::SheetForm,
            start: 0,
            size: 0,
        });
    };
    let n = u64::from(byte_at(rows.sheet, 1));
    if !is_within(64, n) {
        return Err(Wrong {
            rule: Rule::SwitchCount,
            start: 0,
            size,
        });
    }
    rows.switches = n;
    read_list(rows)
}

// The fault list, held to the ports that the sheet's rows use.
#[tactic(auto, unfolding(crate::specs::Faults::fault_reading))]
pub fn read_faults(faults: &[u8], rows: &Rows) -> Result<usize, Wrong>
    ensures { result ≡ told_of (fault_reading (first_rows rows.now.sheet.now rows.now.count) faults.now) }
{
    let mut list = Faults {
        faults,
        count: 0,
        rows,
    };
    read_list(&mut list)?;
    Ok(list.count)
}
