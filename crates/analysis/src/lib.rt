// The analysis: lists, statements, loops and normalize over checked words.
#![tactic(auto)]

mod entry;
mod parts;
mod plain;
mod stages;
mod walk;

ghost use Rattle.std.specs.Prelude.{◌≡◌};
ghost use Rattle.analysis.specs.Entries.{marked};
ghost use Rattle.analysis.specs.Outcomes.{looped};
ghost use Rattle.paper.specs.Answers as answers;
ghost use Rattle.states.specs.Answers.{outcome};

pub use stages::{Settled, Settling, Sought};
use states::{Refusal, Start, State};

// What the analysis of a loop gives: its result, the state after the unrolled turns, the settled state and the four counts of passes.
#[derive(Clone, Copy)]
pub struct LoopAnswer {
    pub exits: State,
    pub turned: State,
    pub settled: State,
    pub searched: usize,
    pub unrolls: usize,
    pub joined: usize,
    pub widened: usize,
}

// A state, and for each word whether it is the count of a list that was entered with a state that is not empty.
#[derive(Clone, Copy)]
pub struct Marked {
    pub state: State,
    pub marks: [u8; 8192],
}

// The ranges of a word list's program over n variables, from the caller's ranges, with a default unroll; or the refusal.
// A short list need not pay for clearing all the marks. n and the unroll stand apart: a `Setting` would ask the caller for its bounds.
pub fn analyse(words: &[u64], n: usize, start: &Start, unroll: usize) -> Result<State, Refusal>
    ensures { result ≡ outcome (answers.analysed words.now n start.now.cells unroll) }
{
    if words.len() <= 256 {
        let mut few = [0; 256];
        return entry::walked(words, n, start, unroll, &mut few);
    }
    let mut marks = [0; 8192];
    entry::walked(words, n, start, unroll, &mut marks)
}

// The same, with the lists that were entered.
pub fn analyse_marked(
    words: &[u64],
    n: usize,
    start: &Start,
    unroll: usize,
) -> Result<Marked, Refusal>
    ensures { result ≡ marked words.now n start.now.cells unroll }
{
    let mut marks = [0; 8192];
    let state = entry::walked(words, n, start, unroll, &mut marks)?;
    Ok(Marked { state, marks })
}

// A program whose top list is one loop: its ranges, the state after the unrolled turns, the settled state and the four counts of passes; or the refusal.
pub fn analyse_loop(
    words: &[u64],
    n: usize,
    start: &Start,
    unroll: usize,
) -> Result<LoopAnswer, Refusal>
    ensures { result ≡ looped (answers.looped words.now n start.now.cells unroll) }
{
    let mut marks = [0; 8192];
    entry::walked_loop(words, n, start, unroll, &mut marks)
}
