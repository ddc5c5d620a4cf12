// The range of a draw, from the part of the words that codes it.
ghost use Rattle.std.specs.Prelude.{◌≡◌};
ghost use Rattle.paper.specs.Code as code;
ghost use Rattle.paper.specs.Rules as rules;
ghost use Rattle.paper.specs.Tree.{Draw};
ghost use Rattle.words.specs.Parts.{DrawIs};

use ranges::Range;
use words::kinds::DrawKind;

// From a start below an end; an empty interval is Empty.
fn below(start: u32, end: u32) -> Range
    ensures { result ≡ rules.below start end }
{
    if start < end {
        Range::Span(start, Some(end - 1))
    } else {
        Range::Empty
    }
}

// The words are checked: one draw whole, within the limits over n variables.
#[tactic(auto, unfolding(paper::specs::Limits::DrawIn))]
pub fn drawn(words: &[u64], n: usize) -> Range
    requires { DrawIs n words.now }
    ensures { (d : Draw) → words.now ≡ code.draw d → result ≡ rules.drawn d }
{
    match DrawKind::of(words[0]).unwrap() {
        DrawKind::Dirac => Range::point((words[1] / words[2]) as u32),
        DrawKind::Bernoulli | DrawKind::BernoulliVarProb => Range::Span(0, Some(1)),
        DrawKind::Binomial => Range::Span(0, Some(words[1] as u32)),
        DrawKind::Categorical => below(0, words[1] as u32),
        DrawKind::Uniform => below(words[1] as u32, words[2] as u32),
        _ => Range::naturals(),
    }
}
