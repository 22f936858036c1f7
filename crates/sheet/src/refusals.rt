// The refusals of the table. Each case stands for its number there.
ghost use Rattle.std.specs.Prelude.{◌≡◌};
ghost use Rattle.sheet.specs.Refusals.{refusal_number, refusal_of};

use crate::rules::Rule;

#[derive(Clone, Copy, Debug, PartialEq, Eq)]
pub enum Refusal {
    SheetForm = 1,
    SwitchCount = 2,
    CableRow = 3,
    FaultForm = 4,
    FaultUncabled = 5,
    OffSheet = 6,
    NoRoom = 7,
    ArrivalPort = 8,
    MarkedTag = 9,
    CellPorts = 10,
}

impl Refusal {
    pub fn number(self) -> u64
        ensures { result ≡ refusal_number self }
    {
        self as u64
    }
}

// The refusal of a record that breaks a rule.
impl From<Rule> for Refusal {
    ghost from_gives = { λ rule refusal. refusal ≡ refusal_of rule };

    fn from(rule: Rule) -> Refusal {
        match rule {
            Rule::SheetForm => Refusal::SheetForm,
            Rule::SwitchCount => Refusal::SwitchCount,
            Rule::SwitchRange => Refusal::CableRow,
            Rule::PortRange => Refusal::CableRow,
            Rule::SameSwitch => Refusal::CableRow,
            Rule::PortUsed => Refusal::CableRow,
            Rule::FaultForm => Refusal::FaultForm,
            Rule::FaultUncabled => Refusal::FaultUncabled,
        }
    }
}
