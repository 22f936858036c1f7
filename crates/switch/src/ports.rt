// The ports of a switch as the packet finds them.
ghost use Rattle.std.specs.Prelude.{◌≡◌};
ghost use Rattle.sheet.specs.Order.{cables_at};

use sheet::check::Lists;
use sheet::order::Order;

// The port order, and the faults that say which of its cables are live.
#[derive(Drop)]
pub struct Ports<'a> {
    pub order: Order<'a>,
    pub faults: &'a [u8],
}

impl<'a> Ports<'a> {
    // The order at these places of the sheet.
    pub fn new(lists: Lists<'a>, places: &'a [u16]) -> Ports<'a>
        ensures order { result.order ≡ cables_at lists.entry.sheet.now places.now }
        ensures faults { result.faults.now ≡ lists.entry.faults.now }
    {
        Ports {
            order: Order {
                sheet: lists.sheet,
                places,
            },
            faults: lists.faults,
        }
    }
}
