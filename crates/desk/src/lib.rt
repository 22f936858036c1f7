// The program's dealings with the operating system: files in, lines out. Nothing here decides what is printed but that a file is missing;
// the asks and the line for each are the crate `lines`'s.
#![tactic(auto)]

ghost use Rattle.std.specs.Prelude.{◌≡◌, ◌<◌, ◌≤◌, length, IfOk, IfSome};
ghost use Rattle.std.specs.Io.KnownBytes.{Consumes, IsAtEnd};
ghost use Rattle.lines.specs.Asks.{ask_at};

use lines::asks::{Ask, next_ask};
use lines::lines::write_line;
use sheet::check::Lists;
use sheet::numbers::Switch;
use sheet::records::{ASK_SIZE, MOST_RECORDS, list_buffer, sheet_buffer};
use std::env::Env;
use std::fs::File;
use std::io::Read;
use std::{fs, io};

// Reads until the buffer is full or the file ends, and answers what was read. What cannot be read, as a directory, fails. A loop of its
// own, going by what each read gives: std's `read_exact` does not say how much came before the end, and `io::copy` reads through a second
// buffer.
#[tactic(auto, using(crate::proofs::Filling::consumes_more))]
fn fill<'a, R: Read>(file: &mut R, buffer: &'a mut [u8]) -> io::Result<&'a [u8]>
    ensures upper_bound { IfOk result (λ bytes. length bytes.now ≤ length buffer.old) }
    ensures read { IfOk result (λ bytes. Consumes (R.remaining file.old) (R.remaining file.new) bytes.now) }
    ensures end { IfOk result (λ bytes. length bytes.now < length buffer.old → IsAtEnd (R.remaining file.new)) }
{
    let mut size = 0;
    while size < buffer.len() {
        match file.read(&mut buffer[size..])? {
            0 => break,
            more => size += more,
        }
    }
    Ok(&buffer[..size])
}

// The file that an argument names, opened; none where there is no such argument, it is no text, it is longer than 4,096 bytes, or it cannot
// be opened. It takes the system and not the bound `Env`: through that a program stands on the kit's word for four C functions more,
// `getcwd` and `chdir` among them. The name is a buffer with a length beside it: `env::args` would ask for that bound, and for memory.
fn open(rt: &HostRuntime, index: usize) -> Option<File> {
    let mut name = [0u8; 4096];
    let length = rt.arg(index, &mut name).ok()?;
    let path = str::from_utf8(&name[..length]).ok()?;
    fs::open(rt, path).ok()
}

// As much of a file as the buffer holds; none where the file cannot be opened or read.
fn read_file<'a>(rt: &HostRuntime, index: usize, buffer: &'a mut [u8]) -> Option<&'a [u8]>
    ensures { IfSome result (λ bytes. length bytes.now ≤ length buffer.old) }
{
    let mut file = open(rt, index)?;
    fill(&mut file, buffer).ok()
}

// The next ask of a file. The window holds one ask, which has three bytes, and shows it as the file does (`window_asks`).
#[tactic(auto, using(crate::proofs::Filling::ask_read))]
fn read_ask<R: Read>(file: &mut R) -> io::Result<Ask>
    ensures { IfOk result (λ ask. IfSome (R.remaining file.old) (λ asks. ask ≡ ask_at asks 0)) }
{
    let mut window = [0u8; ASK_SIZE];
    let bytes = fill(file, &mut window)?;
    Ok(next_ask(bytes, 0))
}

// Prints bytes. What cannot be printed is passed over.
fn print(rt: &impl Print, bytes: &[u8]) {
    let _ = rt.write_all(bytes);
}

// The line for an ask. The buffers are as large as any accepted sheet and any line can ask for: 2 bytes of tag for each of 64 switches, 4
// bytes of trace for each cable of the longest sheet.
fn print_line(rt: &impl Print, lists: &Lists<'_>, source: Switch, destination: Switch) {
    let mut tag = [0u8; 128];
    let mut trace = [0u8; 4 * MOST_RECORDS];
    let mut line = [0u8; 8265];
    let size = write_line(lists, source, destination, &mut tag, &mut trace, &mut line);
    print(rt, &line[..size]);
}

// A line for the first ask, then for each that follows it in the file. A read that fails on the way ends the run as the file's end does:
// the asks before it are answered. A proved loop has to end, and nothing says that a file does: no run uses these turns up.
fn answer_asks(rt: &impl Print, lists: &Lists<'_>, file: &mut impl Read, first: Ask) {
    let mut ask = first;
    for _ in 0..u64::MAX {
        match ask {
            Ask::Asked(source, destination, _) => print_line(rt, lists, source, destination),
            Ask::Broken => {
                print(rt, b"asks broken\n");
                return;
            }
            Ask::Ended => return,
        }
        ask = read_ask(file).unwrap_or(Ask::Ended);
    }
}

// No program is given so many arguments. The bound keeps the numbers of the next two from wrapping.
const MOST_ARGUMENTS: usize = 1000;

// Sheet and fault list, then the asks of a file, which is opened before the two are and read after them. All three are read before anything
// is printed, of the asks the first; none where one is not named, not opened or not read. One byte more than the longest accepted sheet
// and fault list is enough: what follows changes nothing (`prefix_walks` of `lines`).
fn answer_files(rt: &HostRuntime, first: usize) -> Option<()> {
    if MOST_ARGUMENTS < first {
        return None;
    }
    let mut sheet_bytes = sheet_buffer();
    let mut fault_bytes = list_buffer();
    let opened = open(rt, first + 2);
    let sheet = read_file(rt, first, &mut sheet_bytes);
    let faults = read_file(rt, first + 1, &mut fault_bytes);
    let mut asks = opened?;
    let ask = read_ask(&mut asks).ok();
    let lists = Lists {
        sheet: sheet?,
        faults: faults?,
    };
    answer_asks(rt, &lists, &mut asks, ask?);
    Some(())
}

// The program on three arguments, the first of which is given: sheet, fault list, asks. Arguments after them are not looked at.
pub fn run(rt: &HostRuntime, first: usize) {
    if answer_files(rt, first).is_none() {
        print(rt, b"file missing\n");
    }
}
