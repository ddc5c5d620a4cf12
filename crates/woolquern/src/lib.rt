// The whole job on bytes: the text of a program in, one line out.
#![tactic(auto)]

mod loops;
mod marks;

ghost use Rattle.std.specs.Prelude.{◌≡◌, ◌*◌, ◌≤◌, ◌<◌, length, min};
ghost use Rattle.analysis.specs.Outcomes.{answer_by};
ghost use Rattle.states.specs.States as states;
ghost use Rattle.text.specs.Answers.{leaves, of_printed};
ghost use Rattle.text.specs.Line.{printed};
ghost use Rattle.woolquern.specs.Found as found;
ghost use Rattle.woolquern.specs.Job as job;

pub use loops::run_loop;
pub use marks::run_marked;
use states::{Cell, Fault, Refusal, Start};

// Words that are a program, and how many variables they use.
struct Program<'a> {
    words: &'a [u64],
    n: usize,
}

// Every variable starts at [0,0].
fn zeros() -> Start
    ensures { result.cells ≡ states.zeros }
{
    Start {
        cells: [Cell::blank(); 64],
    }
}

// The program that words are.
#[tactic(auto, unfolding(words::specs::Words::checked))]
fn checked(words: &[u64]) -> Result<Program<'_>, Refusal>
    ensures { answer_by found.program result ≡ found.checked words.now }
{
    let n = words::check(words, 64)?;
    Ok(Program { words, n })
}

// The program that a text of no more bytes than allowed holds. Its words go into the lent ones, of which there is to be one for every two bytes, or 8,192: a text has no more.
#[tactic(auto, using(crate::proofs::Jobs::front_count, crate::proofs::Jobs::front_words))]
fn read<'a>(text: &[u8], words: &'a mut [u64]) -> Result<Program<'a>, Refusal>
    requires short { length text.now ≤ 65536 }
    requires room { min (length text.now) 16384 ≤ 2 * length words.old }
    ensures { answer_by found.program result ≡ found.held text.now }
{
    let count = text::pass(text, words)?;
    if 8192 < count {
        return Err(Fault::TooLong.at(0));
    }
    checked(&words[..count])
}

// The program that a text holds, its words read into as many as a text may have.
#[tactic(auto, using(crate::proofs::Ways::read_refused, crate::proofs::Ways::read_words))]
fn read_whole<'a>(text: &[u8], words: &'a mut [u64; 8192]) -> Result<Program<'a>, Refusal>
    ensures { answer_by found.program result ≡ found.held text.now }
{
    let count = text::read(text, words)?;
    checked(&words[..count])
}

// Prints a refusal.
fn refuse(refusal: Refusal, out: &mut [u8]) -> Option<usize>
    ensures what_is_left { leaves (of_printed result) out.new ≡ printed (job.refusal refusal.number refusal.place) out.old }
    ensures out_len_bound { result ≡ None → length out.old < 2048 }
{
    text::line(&Err(refusal), 0, out)
}

// Prints the line for a text, its words in the lent ones.
#[tactic(auto, unfolding(paper::specs::Answers::ran))]
fn run_with(text: &[u8], words: &mut [u64], out: &mut [u8]) -> Option<usize>
    requires short { length text.now ≤ 65536 }
    requires room { min (length text.now) 16384 ≤ 2 * length words.old }
    ensures what_is_left { leaves (of_printed result) out.new ≡ job.run text.now out.old }
    ensures out_len_bound { result ≡ None → length out.old < 2048 }
{
    match read(text, words) {
        Ok(Program { words, n }) => {
            let answer = analysis::analyse(words, n, &zeros(), 0);
            text::line(&answer, n, out)
        }
        Err(refusal) => refuse(refusal, out),
    }
}

// The same with so many words of its own. It stays a function: only a call that takes this way is to pay for them, in time and stack.
#[inline(never)]
fn run_in<const N: usize>(text: &[u8], out: &mut [u8]) -> Option<usize>
    requires few { N ≤ 8192 }
    requires short { length text.now ≤ 65536 }
    requires enough { min (length text.now) 16384 ≤ 2 * N }
    ensures what_is_left { leaves (of_printed result) out.new ≡ job.run text.now out.old }
    ensures out_len_bound { result ≡ None → length out.old < 2048 }
{
    run_with(text, &mut [0; N], out)
}

// Prints the line for a text: how many bytes, or none where the buffer is shorter, and then it is left as it was. 2,048 bytes are always enough.
pub fn run(text: &[u8], out: &mut [u8]) -> Option<usize>
    ensures what_is_left { leaves (of_printed result) out.new ≡ job.run text.now out.old }
    ensures out_len_bound { result ≡ None → length out.old < 2048 }
{
    if text.len() <= 512 {
        run_in::<256>(text, out)
    } else if text.len() <= 65536 {
        run_in::<8192>(text, out)
    } else {
        refuse(Fault::TooLong.at(0), out)
    }
}
