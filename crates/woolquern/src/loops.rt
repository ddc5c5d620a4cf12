// The job of a program that is one loop: its ranges, its settled state and its counts of passes.
ghost use Rattle.std.specs.Prelude.{◌≡◌, ◌<◌, length};
ghost use Rattle.analysis.specs.Outcomes.{answer_by};
ghost use Rattle.text.specs.Answers.{of_printed};
ghost use Rattle.woolquern.specs.Found as found;
ghost use Rattle.woolquern.specs.Job as job;

use crate::Program;
use analysis::LoopAnswer;
use states::{Fault, Refusal};

// What a loop gives, and for how many variables.
struct Loop {
    n: usize,
    found: LoopAnswer,
}

// What the loop that a text holds gives, with room for so many counts and for a settled state's line of so many bytes.
fn looped(text: &[u8], unroll: usize, counts: usize, settled: usize) -> Result<Loop, Refusal>
    ensures { answer_by found.looped result ≡ job.loop_in text.now unroll counts settled }
{
    let mut words = [0; 8192];
    let Program { words, n } = crate::read_whole(text, &mut words)?;
    let found = analysis::analyse_loop(words, n, &crate::zeros(), unroll)?;
    if counts < 4 || settled < text::line_length(&Ok(found.settled), n) {
        return Err(Fault::TooLong.at(0));
    }
    Ok(Loop { n, found })
}

// Prints the line for the text of one loop, with a default unroll; beside it the four counts of passes and the settled state's line.
pub fn run_loop(
    text: &[u8],
    unroll: usize,
    counts: &mut [u64],
    settled: &mut [u8],
    out: &mut [u8],
) -> Option<usize>
    ensures what_is_left { job.all_left (of_printed result) counts.new settled.new out.new ≡ job.run_loop text.now unroll counts.old settled.old out.old }
    ensures out_len_bound { result ≡ None → length out.old < 2048 }
{
    match looped(text, unroll, counts.len(), settled.len()) {
        Ok(Loop { n, found }) => {
            let printed = text::line(&Ok(found.exits), n, out)?;
            text::line(&Ok(found.settled), n, settled);
            counts[..4].copy_from_slice(&[
                found.searched as u64,
                found.unrolls as u64,
                found.joined as u64,
                found.widened as u64,
            ]);
            Some(printed)
        }
        Err(refusal) => crate::refuse(refusal, out),
    }
}
