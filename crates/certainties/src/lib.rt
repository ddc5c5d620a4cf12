// The page of the three certainties, held to the code: each function hands on the answer of the library's function of its name,
// and its contract is the page's equation for that answer. None is called: they stand here for their contracts.
#![tactic(auto)]

ghost use Rattle.std.specs.Prelude.{◌≡◌, length};
ghost use Rattle.certainties.specs.Certainties.{Analyse, AnalyseMarked, AnalyseLoop, Check, Used};
ghost use Rattle.certainties.specs.Texts.{Read, Line, Run, RunMarked, RunLoop};

use analysis::{LoopAnswer, Marked};
use states::{Refusal, Start, State};

fn analyse(words: &[u64], n: usize, start: &Start, unroll: usize) -> Result<State, Refusal>
    ensures { (long : length start.now.cells ≡ 64) → Analyse (record { words = words.now; n = n; start = start.now; unroll = unroll; sixty_four = long }) result }
{
    analysis::analyse(words, n, start, unroll)
}

fn analyse_marked(words: &[u64], n: usize, start: &Start, unroll: usize) -> Result<Marked, Refusal>
    ensures { (long : length start.now.cells ≡ 64) → AnalyseMarked (record { words = words.now; n = n; start = start.now; unroll = unroll; sixty_four = long }) result }
{
    analysis::analyse_marked(words, n, start, unroll)
}

fn analyse_loop(
    words: &[u64],
    n: usize,
    start: &Start,
    unroll: usize,
) -> Result<LoopAnswer, Refusal>
    ensures { (long : length start.now.cells ≡ 64) → AnalyseLoop (record { words = words.now; n = n; start = start.now; unroll = unroll; sixty_four = long }) result }
{
    analysis::analyse_loop(words, n, start, unroll)
}

fn check(words: &[u64], n: usize) -> Result<usize, Refusal>
    ensures { Check words.now n result }
{
    words::check(words, n)
}

fn used(words: &[u64]) -> usize
    ensures { Used words.now result }
{
    words::used(words)
}

fn read(text: &[u8], words: &mut [u64]) -> Result<usize, Refusal>
    ensures { Read text.now words.old result words.new }
{
    text::read(text, words)
}

fn line(answer: &Result<State, Refusal>, n: usize, out: &mut [u8]) -> Option<usize>
    ensures { Line answer.now n out.old result out.new }
{
    text::line(answer, n, out)
}

fn run(text: &[u8], out: &mut [u8]) -> Option<usize>
    ensures { Run text.now out.old result out.new }
{
    woolquern::run(text, out)
}

fn run_marked(text: &[u8], marks: &mut [u8], out: &mut [u8]) -> Option<usize>
    ensures { RunMarked text.now marks.old out.old result marks.new out.new }
{
    woolquern::run_marked(text, marks, out)
}

fn run_loop(
    text: &[u8],
    unroll: usize,
    counts: &mut [u64],
    settled: &mut [u8],
    out: &mut [u8],
) -> Option<usize>
    ensures { RunLoop text.now unroll counts.old settled.old out.old result counts.new settled.new out.new }
{
    woolquern::run_loop(text, unroll, counts, settled, out)
}
