// Records of the house format: one byte of kind, then a body whose length the kind fixes.
ghost use Rattle.std.specs.Prelude.{◌≡◌, ◌+◌, get_or, replicate};
ghost use Rattle.sheet.specs.Records.{record_at, form_of};
ghost use Rattle.sheet.specs.Sizes.{longest_sheet, longest_list};

// Where a kind of record may stand. A number and no enum: `record_at` promises its answer for every Place that a caller makes.
#[derive(Clone, Copy, Debug, PartialEq, Eq)]
pub struct Place(pub u8);

pub const NOWHERE: Place = Place(0);

pub const FRONT: Place = Place(1);

pub const ROW: Place = Place(2);

pub const FAULT: Place = Place(3);

pub const ASK: Place = Place(4);

// The length of a record's body, and where the record may stand.
#[derive(Clone, Copy, Debug, PartialEq, Eq)]
pub struct Form {
    pub body: usize,
    pub place: Place,
}

// By kind. Kind 0 stands nowhere, and so does every kind past the table.
pub const FORMS: [Form; 5] = [
    Form {
        body: 0,
        place: NOWHERE,
    },
    Form {
        body: 1,
        place: FRONT,
    },
    Form {
        body: 6,
        place: ROW,
    },
    Form {
        body: 2,
        place: FAULT,
    },
    Form {
        body: 2,
        place: ASK,
    },
];

// A sheet has at most this many cable rows and a fault list this many faults, and none after them counts.
pub const MOST_RECORDS: usize = 512;

// The longest sheet and the longest fault list, as the table gives them.
const LONGEST_SHEET: usize = 1 + FORMS[1].body + (1 + FORMS[2].body) * MOST_RECORDS;

const LONGEST_LIST: usize = (1 + FORMS[3].body) * MOST_RECORDS;

// The size of an ask.
pub const ASK_SIZE: usize = 1 + FORMS[4].body;

// What the walker finds at a position.
#[derive(Clone, Copy, Debug, PartialEq, Eq)]
pub enum Found {
    // A whole record; the next begins here.
    Record(usize),
    WrongKind,
    CutShort,
    Ended,
}

// The byte at a position, 0 past the end and no None, so that no reader asks anything of its caller. Bytes and a position are two
// parameters wherever the format is read, since positions are what the definitions speak of.
pub fn byte_at(bytes: &[u8], at: usize) -> u8
    ensures { result ≡ get_or bytes.now at 0 }
{
    bytes.get(at).copied().unwrap_or(0)
}

// Each entry is read at a fixed index: an index that is computed would have the whole table copied to the stack at every record.
#[tactic(auto, unfolding(crate::specs::Records::form_of))]
pub(crate) fn form_of(kind: u8) -> Form
    ensures { result ≡ form_of kind }
{
    match kind {
        1 => FORMS[1],
        2 => FORMS[2],
        3 => FORMS[3],
        4 => FORMS[4],
        _ => FORMS[0],
    }
}

// The record walker: what stands at a position, for one place of the format.
#[tactic(auto, unfolding(crate::specs::Records::record_at))]
pub fn record_at(bytes: &[u8], at: usize, place: Place) -> Found
    ensures { result ≡ record_at place bytes.now at }
{
    if bytes.len() <= at {
        return Found::Ended;
    }
    let form = form_of(bytes[at]);
    if form.place != place {
        return Found::WrongKind;
    }
    let body = form.body;
    if body <= bytes.len() - at - 1 {
        Found::Record(at + 1 + body)
    } else {
        Found::CutShort
    }
}

// Room for one byte more than the longest sheet has, so that a longer one shows. One function for both lists would promise the zeros, and
// not that the size is the table's.
pub fn sheet_buffer() -> [u8; LONGEST_SHEET + 1]
    ensures { result ≡ replicate (longest_sheet + 1) 0 }
{
    [0; LONGEST_SHEET + 1]
}

// The same for a fault list.
pub fn list_buffer() -> [u8; LONGEST_LIST + 1]
    ensures { result ≡ replicate (longest_list + 1) 0 }
{
    [0; LONGEST_LIST + 1]
}
