// A list of records, read from the front, record by record: the same walk for the rows of a sheet and for a fault list.
ghost use Rattle.std.specs.Prelude.{◌≡◌, List, ◌∷◌, [], ◌++◌, ℕ, ◌+◌, ◌<◌, length, Result, IfOk};
ghost use Rattle.sheet.specs.Records.{scan, wholes, record_at};
ghost use Rattle.sheet.specs.Refusals.{refusal_of};
ghost use Rattle.sheet.specs.Told.{next_of, reading_of};
ghost use Rattle.sheet.specs.declared.listing.Layout.{Layout};
ghost use Rattle.sheet.specs.declared.rules.Rule.{Rule};

use crate::records::{Found, Place, record_at};
use crate::refusals::Refusal;
use crate::rules::Rule;

// The first wrong record of a list: the rule that it breaks, its start and its length as far as the bytes go.
#[derive(Clone, Copy, Debug, PartialEq, Eq)]
pub struct Wrong {
    pub rule: Rule,
    pub start: usize,
    pub size: usize,
}

impl From<Wrong> for Refusal {
    ghost from_gives = { λ first refusal. refusal ≡ refusal_of first.rule };

    fn from(first: Wrong) -> Refusal {
        first.rule.into()
    }
}

// Where the records of a list stand, the rule that one breaks by its form, where the first begins, and how many there may be.
#[derive(Clone, Copy, Debug, PartialEq, Eq)]
pub struct Layout {
    pub place: Place,
    pub form: Rule,
    pub from: usize,
    pub most: usize,
}

// Records that are each held to the rules on them and then taken in. Its layout is no constant: an impl for a type with a lifetime can
// have none yet.
pub trait RecordList {
    ghost Item: { Type 0 };

    ghost read: { List ℕ → ℕ → Item };

    ghost check: { Self → List Item → Item → Result (Unit {0}) Rule };

    ghost layout: { Layout };

    ghost bytes: { Self → List ℕ };

    ghost taken: { Self → ℕ };

    fn layout(&self) -> Layout
        ensures { result ≡ layout };

    fn bytes(&self) -> &[u8]
        ensures { result.now ≡ bytes self.now };

    // The next record, where its kind byte stands.
    fn take(&mut self, start: usize) -> Result<(), Rule>
        requires inside { start < length (bytes self.old) }
        requires room { taken self.old < layout.most }
        requires next { wholes layout.place read (taken self.old + 1) (bytes self.old) layout.from
            ≡ wholes layout.place read (taken self.old) (bytes self.old) layout.from ++ (read (bytes self.old) start ∷ []) }
        ensures judged { let before = wholes layout.place read (taken self.old) (bytes self.old) layout.from in
            result ≡ check self.old before (read (bytes self.old) start) }
        ensures counted { IfOk result (λ _. taken self.new ≡ taken self.old + 1) }
        ensures same { (bytes self.new ≡ bytes self.old) × (check self.new ≡ check self.old) };
}

// Where the record after this one begins; none at the end of the bytes. A record that is wrong by its form breaks this rule.
#[tactic(auto, unfolding(crate::specs::Records::record_at))]
pub fn next_record(
    bytes: &[u8],
    start: usize,
    place: Place,
    rule: Rule,
) -> Result<Option<usize>, Wrong>
    ensures { result ≡ next_of rule bytes.now start (record_at place bytes.now start) }
{
    let size = match record_at(bytes, start, place) {
        Found::Record(next) => return Ok(Some(next)),
        Found::Ended => return Ok(None),
        Found::WrongKind => 1,
        Found::CutShort => bytes.len() - start,
    };
    Err(Wrong { rule, start, size })
}

// Takes in every record, or stops at the first wrong one.
#[tactic(auto, using(crate::proofs::Listed::turns))]
pub fn read_list<L: RecordList>(list: &mut L) -> Result<(), Wrong>
    requires { L.taken list.old ≡ 0 }
    ensures told { let records = wholes L.layout.place L.read (L.taken list.new) (L.bytes list.old) L.layout.from in
        reading_of (λ _. records) result
        ≡ scan L.layout.place L.layout.form L.read (L.check list.old) L.layout.most (L.bytes list.old) L.layout.from [] }
    ensures counted { let records = wholes L.layout.place L.read (L.taken list.new) (L.bytes list.old) L.layout.from in
        IfOk result (λ _. length records ≡ L.taken list.new) }
    ensures same { (L.bytes list.new ≡ L.bytes list.old) × (L.check list.new ≡ L.check list.old) }
{
    let Layout {
        place,
        form,
        from,
        most,
    } = list.layout();
    let mut start = from;
    for _ in 0..most {
        let Some(next) = next_record(list.bytes(), start, place, form)? else {
            return Ok(());
        };
        if let Err(rule) = list.take(start) {
            let size = next - start;
            return Err(Wrong { rule, start, size });
        }
        start = next;
    }
    // One record more is one too many.
    match next_record(list.bytes(), start, place, form)? {
        None => Ok(()),
        Some(next) => Err(Wrong {
            rule: form,
            start,
            size: next - start,
        }),
    }
}
