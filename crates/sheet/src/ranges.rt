// Numbers within 1 and a most.
ghost use Rattle.std.specs.Prelude.{◌≡◌};
ghost use Rattle.sheet.specs.Lists.{both};
ghost use Rattle.sheet.specs.Cables.{within};

pub fn is_within(most: u64, k: u64) -> bool
    ensures { result ≡ within most k }
{
    (1..=most).contains(&k)
}

pub fn are_within(most: u64, j: u64, k: u64) -> bool
    ensures { result ≡ both (within most j) (within most k) }
{
    is_within(most, j) && is_within(most, k)
}
