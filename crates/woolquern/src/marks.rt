// The job with the lists that were entered.
ghost use Rattle.std.specs.Prelude.{◌≡◌, ◌≤◌, ◌<◌, length, min, IfOk};
ghost use Rattle.analysis.specs.Outcomes.{answer_by};
ghost use Rattle.text.specs.Answers.{of_printed};
ghost use Rattle.woolquern.specs.Found as found;
ghost use Rattle.woolquern.specs.Job as job;

use crate::Program;
use analysis::Marked;
use states::{Fault, Refusal};

// What is found of a program, and for how many variables and words.
struct Entered {
    n: usize,
    count: usize,
    found: Marked,
}

// What is found of the program that a text holds, with room for so many marks.
#[tactic(auto, using(crate::proofs::Kept::marks_kept), unfolding(paper::specs::Answers::ran))]
fn marked(text: &[u8], room: usize) -> Result<Entered, Refusal>
    ensures value { answer_by found.entered result ≡ job.entered text.now room }
    ensures bound { IfOk result (λ e. e.count ≤ min room 8192) }
{
    let mut words = [0; 8192];
    let Program { words, n } = crate::read_whole(text, &mut words)?;
    let found = analysis::analyse_marked(words, n, &crate::zeros(), 0)?;
    let count = words.len();
    if room < count {
        return Err(Fault::TooLong.at(0));
    }
    Ok(Entered { n, count, found })
}

// Prints the line for a text, and beside it a byte for each word: 1 at the count of a list that was entered with a state that is not empty.
pub fn run_marked(text: &[u8], marks: &mut [u8], out: &mut [u8]) -> Option<usize>
    ensures what_is_left { job.left (of_printed result) marks.new out.new ≡ job.run_marked text.now marks.old out.old }
    ensures out_len_bound { result ≡ None → length out.old < 2048 }
{
    match marked(text, marks.len()) {
        Ok(Entered { n, count, found }) => {
            let printed = text::line(&Ok(found.state), n, out)?;
            text::put_bytes(marks, 0, &found.marks[..count]);
            Some(printed)
        }
        Err(refusal) => crate::refuse(refusal, out),
    }
}
