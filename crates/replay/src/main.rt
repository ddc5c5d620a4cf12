// Replays the recorded list: two lines for each program, its text and the line that is to be printed.
// Prints each program whose line is another, and how many agree and how many differ.
#![tactic(auto)]

ghost use Rattle.std.specs.Prelude.{◌≡◌, ◌==◌, true, ◌≤◌, length, position};
ghost use Rattle.replay.specs.Records as records;
ghost use Rattle.replay.specs.Records.{Line, Prints, Replayed};

use std::fs::File;
use std::io;

// How many recorded lines are the printed ones, and how many are not.
#[derive(Clone, Copy)]
struct Tally {
    agree: u64,
    differ: u64,
}

// Where the first line feed is.
fn line_feed(bytes: &[u8]) -> Option<usize>
    ensures { result ≡ position (λ b. b == 0x0A) bytes.now }
{
    bytes.iter().position(|b| *b == b'\n')
}

// The line that begins at `from`: where it ends, at its line feed or at the list's end, and where the one after it begins.
#[tactic(auto, using(crate::proofs::Lines::line_last))]
fn line_at(list: &[u8], from: usize) -> (usize, usize)
    requires { from ≤ length list.now }
    ensures ends { Line list.now from result.0 }
    ensures next { result.1 ≡ records.next list.now result.0 }
{
    match line_feed(&list[from..]) {
        Some(length) => (from + length, from + length + 1),
        None => (list.len(), list.len()),
    }
}

// Prints a record whose line is not the printed one.
fn tell(rt: &impl Print, text: &[u8], line: &[u8], printed: &[u8]) -> io::Result<()> {
    rt.write_all(b"text: ")?;
    rt.write_all(text)?;
    rt.write_all(b"\nrecorded: ")?;
    rt.write_all(line)?;
    rt.write_all(b"printed: ")?;
    rt.write_all(printed)
}

// Whether `line`, with its line feed, is what is printed for `text`. If not, the three are told.
#[tactic(auto, using(crate::proofs::Lines::compares))]
fn agrees(rt: &impl Print, text: &[u8], line: &[u8]) -> bool
    ensures { (result ≡ true → Prints text.now line.now) × (Prints text.now line.now → result ≡ true) }
{
    let mut out = [0; 2048];
    let count = woolquern::run(text, &mut out).unwrap();
    let printed = &out[..count];
    let same = printed == line;
    if !same {
        // Where it cannot be told, the count still shows it.
        let _ = tell(rt, text, line, printed);
    }
    same
}

// Replays every program of the list.
#[tactic(auto, using(crate::proofs::Lines::none_passed))]
fn replayed(rt: &impl Print, list: &[u8]) -> Tally
    ensures { Replayed list.now (length list.now) result.agree result.differ }
{
    let mut tally = Tally {
        agree: 0,
        differ: 0,
    };
    let mut at = 0;
    while at < list.len() {
        let (text_end, line) = line_at(list, at);
        let (_, then) = line_at(list, line);
        if agrees(rt, &list[at..text_end], &list[line..then]) {
            tally.agree += 1;
        } else {
            tally.differ += 1;
        }
        at = then;
    }
    tally
}

// Room for the list. Of a longer one the rest would not be replayed, and the count would show it.
fn room() -> [u8; 2097152]
    ensures { 2097152 ≡ length result }
{
    [0; 2097152]
}

fn main(rt: HostRuntime) -> io::Result<()> {
    let mut file = File::open(&rt, "answers.txt")?;
    let mut list = room();
    let length = input::read_full(&mut file, &mut list);
    let Tally { agree, differ } = replayed(&rt, &list[..length]);
    println!(rt; "{agree} agree, {differ} differ")
}
