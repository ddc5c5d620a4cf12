// What the public functions share: admission, the check, and the walk with lent marks.
ghost use Rattle.std.specs.Prelude.{◌≡◌, ◌≤◌, length, IfOk, OnOk};
ghost use Rattle.analysis.specs.Entries.{Analysed};
ghost use Rattle.analysis.specs.Noted.{setting_of};
ghost use Rattle.analysis.specs.Outcomes.{answer_by, looped};
ghost use Rattle.paper.specs.Answers as answers;
ghost use Rattle.states.specs.Answers.{answer_of};

use crate::{LoopAnswer, walk};
use events::{Part, Setting};
use states::{Fault, Refusal, Start, State};

// List length, n, default unroll, 7: the caller's setting and the starting state, or the refusal.
fn admitted(
    words: &[u64],
    n: usize,
    start: &Start,
    unroll: usize,
) -> Result<(Setting, State), Refusal>
    ensures out { answer_by (λ admitted. admitted.1) result ≡ answers.admitted words.now n unroll start.now.cells }
    ensures few { OnOk result (length words.now ≤ 8192) }
    ensures setting { IfOk result (λ admitted. setting_of admitted.0 ≡ record { n = n; unroll = unroll }) }
{
    if 8192 < words.len() || 64 < n || 10000 < unroll {
        return Err(Fault::OverLimit.at(0));
    }
    let state = states::started(start, n)?;
    Ok((Setting { n, unroll }, state))
}

pub fn walked(
    words: &[u64],
    n: usize,
    start: &Start,
    unroll: usize,
    marks: &mut [u8],
) -> Result<State, Refusal>
    requires { length words.now ≤ 8192 → length words.now ≤ length marks.old }
    ensures { Analysed words.now n start.now.cells unroll result marks.old marks.new }
{
    let (setting, mut state) = admitted(words, n, start, unroll)?;
    words::check(words, n)?;
    walk::list(Part::whole(words), setting, &mut state, marks)?;
    Ok(state)
}

// A first word other than 1 is 3 at 0, a kind other than 5 is 3 at 1.
#[tactic(auto, unfolding(paper::specs::Reader::unless, paper::specs::Reader::word, paper::specs::Reader::and_read, paper::specs::Reader::if_read))]
fn begins(words: &[u64]) -> Result<(), Refusal>
    ensures { answer_of result ≡ answers.begins words.now }
{
    match words {
        [1, 5, ..] => Ok(()),
        [1, ..] => Err(Fault::NoProgram.at(1)),
        _ => Err(Fault::NoProgram.at(0)),
    }
}

pub fn walked_loop(
    words: &[u64],
    n: usize,
    start: &Start,
    unroll: usize,
    marks: &mut [u8],
) -> Result<LoopAnswer, Refusal>
    requires { length words.now ≤ 8192 → length words.now ≤ length marks.old }
    ensures { result ≡ looped (answers.looped words.now n start.now.cells unroll) }
{
    let (setting, state) = admitted(words, n, start, unroll)?;
    begins(words)?;
    words::check(words, n)?;
    walk::looped(Part::whole(words).rest(1), setting, &state, marks)
}
