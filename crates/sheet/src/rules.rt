// The rules that a record can break.
#[derive(Clone, Copy, Debug, PartialEq, Eq)]
pub enum Rule {
    SheetForm,
    SwitchCount,
    SwitchRange,
    PortRange,
    SameSwitch,
    PortUsed,
    FaultForm,
    FaultUncabled,
}
