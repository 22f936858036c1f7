// The positions of the records of one place, from the front on, as far as they are whole.
ghost use Rattle.std.specs.Prelude.{◌≡◌, List, ℕ};
ghost use Rattle.std.specs.Iterator.{YieldsFirst, item_count};
ghost use Rattle.sheet.specs.Records.{wholes};
ghost use Rattle.sheet.specs.Order.{start_at};

use crate::records::{Found, MOST_RECORDS, Place, record_at};
use std::marker::Model;

// From a position on, at most so many: to contracts it is the list of the positions to come.
#[derive(Drop)]
pub struct Starts<'a> {
    bytes: &'a [u8],
    place: Place,
    at: usize,
    room: usize,
}

impl<'a> Model for Starts<'a> {
    ghost Value = { List ℕ };

    ghost view = { λ starts. wholes starts.place start_at starts.room starts.bytes.now starts.at };
}

impl<'a> Starts<'a> {
    pub fn new(bytes: &'a [u8], place: Place, first: usize) -> Starts<'a>
        ensures { result ≡ wholes place start_at 512 bytes.now first }
    {
        Starts {
            bytes,
            place,
            at: first,
            room: MOST_RECORDS,
        }
    }
}

impl Iterator for Starts<'_> {
    type Item = usize;

    ghost next_gives = { YieldsFirst (λ starts. starts) };

    ghost remaining = { item_count (λ starts. starts) };

    #[tactic(auto, unfolding(crate::specs::Records::wholes))]
    fn next(&mut self) -> Option<usize> {
        if self.room == 0 {
            return None;
        }
        let start = self.at;
        let Found::Record(next) = record_at(self.bytes, start, self.place) else {
            return None;
        };
        self.at = next;
        self.room -= 1;
        Some(start)
    }
}
