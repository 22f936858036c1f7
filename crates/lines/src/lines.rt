// The line for a walk.
ghost use Rattle.std.specs.Prelude.{◌≡◌, ◌*◌, ◌≤◌, length};
ghost use Rattle.walk.specs.Walk.{ended, paper_of, Result, Walks};
ghost use Rattle.lines.specs.Text.{added, filled};
ghost use Rattle.lines.specs.Lines.{hop_text, hops_text, hops_of, way_text, refusal_text, end_text, line_of, line_after, Written};

use crate::text::Line;
use sheet::check::Lists;
use sheet::numbers::Switch;
use walk::walk::{End, Walked, walk};

// The text of a line, piece by piece and by no `write!`: the reason stands at `Line`.
impl Line<'_> {
    // switch:port, after a blank.
    #[tactic(auto, using(crate::proofs::Texts::added_append))]
    fn put_hop(&mut self, switch: u8, port: u8)
        ensures { self.new ≡ added self.old (hop_text (record { switch = switch; port = port })) }
    {
        self.put_byte(b' ');
        self.put_number(u64::from(switch));
        self.put_byte(b':');
        self.put_number(u64::from(port));
    }

    #[tactic(auto, using(crate::proofs::Hops::added_hop))]
    fn put_hops(&mut self, hops: &[[u8; 2]])
        ensures { self.new ≡ added self.old (hops_text (hops_of hops.now)) }
    {
        for &[switch, port] in hops {
            self.put_hop(switch, port);
        }
    }

    // A walk's end, its hop count and its hops. The count is cast: between usize and u64 there is no `From`, and both have 64 bits.
    #[tactic(auto, using(crate::proofs::Texts::added_append, crate::proofs::Hops::all_hops))]
    fn put_way(&mut self, word: &str, hops: &[[u8; 2]])
        ensures { self.new ≡ added self.old (way_text word.now (length hops.now) (hops_of hops.now)) }
    {
        self.put_text(word);
        self.put_byte(b' ');
        self.put_number(hops.len() as u64);
        self.put_hops(hops);
    }

    #[tactic(auto, using(crate::proofs::Texts::added_append))]
    fn put_refusal(&mut self, number: u64)
        ensures { self.new ≡ added self.old (refusal_text number) }
    {
        self.put_text("refused");
        self.put_byte(b' ');
        self.put_number(number);
    }

    // The end of a walk, and what goes with it.
    fn put_end(&mut self, end: End, hops: &[[u8; 2]])
        ensures { self.new ≡ added self.old (end_text (ended end 0 (length hops.now)) (hops_of hops.now)) }
    {
        match end {
            End::Delivered => self.put_way("delivered", hops),
            End::None => self.put_way("none", hops),
            End::Refused(number) => self.put_refusal(number),
        }
    }

    // The whole line. Source and destination are two parameters here and below, as an ask names them.
    #[tactic(auto, using(crate::proofs::Texts::added_append), unfolding(crate::specs::Lines::line_of))]
    fn put_answer(&mut self, source: Switch, destination: Switch, end: End, hops: &[[u8; 2]])
        ensures { self.new ≡ added self.old (line_of source.0 destination.0 (ended end 0 (length hops.now)) (hops_of hops.now)) }
    {
        self.put_number(source.0);
        self.put_byte(b' ');
        self.put_number(destination.0);
        self.put_byte(b' ');
        self.put_end(end, hops);
        self.put_byte(b'\n');
    }
}

// The line for a walk that has ended, and its length. Its hops are counted in u64, and cast for the slice as in `put_way`.
fn put_line(
    line: &mut [u8],
    source: Switch,
    destination: Switch,
    walked: Walked,
    trace: &[u8],
) -> usize
    requires { (walked.hops ≤ 1024) × (2 * walked.hops ≤ length trace.now) × ((paper_of walked).number ≤ 7) }
    ensures line { line.new ≡ filled (line_after source.0 destination.0 walked trace.now) line.old }
    ensures size { result ≡ length (line_after source.0 destination.0 walked trace.now) }
    ensures upper_bound { result ≤ 8265 }
{
    let (pairs, _) = trace.as_chunks::<2>();
    let hops = &pairs[..walked.hops as usize];
    let mut line = Line {
        buffer: line,
        size: 0,
    };
    line.put_answer(source, destination, walked.end, hops);
    line.size
}

// The walk of an ask and its line. What does not fit is left out and still counted; 8,265 bytes hold every line.
#[tactic(auto, using(crate::proofs::Walked::walk_fits))]
pub fn write_line(
    lists: &Lists<'_>,
    source: Switch,
    destination: Switch,
    tag: &mut [u8],
    trace: &mut [u8],
    line: &mut [u8],
) -> usize
    ensures written { (w : Result)
        → Walks lists.now.sheet.now lists.now.faults.now tag.old trace.old source.0 destination.0 w
        → Written source.0 destination.0 w line.old line.new tag.new trace.new result }
    ensures upper_bound { result ≤ 8265 }
{
    let walked = walk(lists, tag, trace, source, destination);
    put_line(line, source, destination, walked, trace)
}
