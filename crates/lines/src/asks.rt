// The asks, one record at a time.
ghost use Rattle.std.specs.Prelude.{◌≡◌};
ghost use Rattle.lines.specs.Asks.{ask_at};

use sheet::numbers::Switch;
use sheet::records::{ASK, Found, byte_at, record_at};

// What stands at a position of the asks. It stays an enum, as its three cases are three things for the program to do: a Result of an Option
// would lie in the Result of a read there.
#[derive(Clone, Copy, Debug, PartialEq, Eq)]
pub enum Ask {
    // Source and destination; the next ask begins here.
    Asked(Switch, Switch, usize),
    // Another kind of record, or one that is cut short.
    Broken,
    Ended,
}

#[tactic(auto, using(crate::proofs::Window::ask_fits))]
pub fn next_ask(asks: &[u8], at: usize) -> Ask
    ensures { result ≡ ask_at asks.now at }
{
    match record_at(asks, at, ASK) {
        Found::Record(next) => {
            let source = Switch::from(byte_at(asks, at + 1));
            let destination = Switch::from(byte_at(asks, at + 2));
            Ask::Asked(source, destination, next)
        }
        Found::WrongKind | Found::CutShort => Ask::Broken,
        Found::Ended => Ask::Ended,
    }
}
