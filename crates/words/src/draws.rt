// Draws.
#![tactic(auto, unfolding(crate::specs::Words::seen, crate::specs::Words::after, paper::specs::Reader::and_read, paper::specs::Reader::if_read, paper::specs::Reader::by_kind, paper::specs::Reader::unless, paper::specs::Reader::ratio, paper::specs::Reader::interval, paper::specs::Reader::draw))]

ghost use Rattle.std.specs.Prelude.{◌≡◌};
ghost use Rattle.paper.specs.Reader as reader;
ghost use Rattle.paper.specs.Used.{used_draw};
ghost use Rattle.words.specs.Words.{seen, after};

use crate::kinds::DrawKind;
use crate::single::{small, variable, word};
use states::{Fault, Refusal};

// Whether p / q is a whole number of 32 bits.
fn whole(p: u64, q: u64) -> bool
    ensures { result ≡ reader.whole p q }
{
    q != 0 && p % q == 0 && p / q <= u64::from(u32::MAX)
}

// Numerator and denominator of a u32 integer; any other is refused at the denominator.
fn ratio(words: &[u64], at: usize) -> Result<usize, Refusal>
    ensures { result ≡ after (reader.ratio words.now at) }
{
    let (denom_at, p) = word(words, at)?;
    let (next, q) = word(words, denom_at)?;
    if whole(p, q) {
        Ok(next)
    } else {
        Err(Fault::NoDraw.at(denom_at))
    }
}

// Start and end.
fn interval(words: &[u64], at: usize) -> Result<usize, Refusal>
    ensures { result ≡ after (reader.interval words.now at) }
{
    let end_at = small(words, at)?;
    small(words, end_at)
}

// A draw, by its kind word; the continuous ones are refused there.
pub fn draw(words: &[u64], n: usize, at: usize) -> Result<(usize, u64), Refusal>
    ensures { result ≡ seen used_draw (reader.draw words.now n at) }
{
    let (next, kind) = word(words, at)?;
    match DrawKind::of(kind).ok_or(Fault::NoProgram.at(at))? {
        DrawKind::Dirac => Ok((ratio(words, next)?, 0)),
        DrawKind::Bernoulli | DrawKind::Geometric | DrawKind::Poisson => Ok((next, 0)),
        DrawKind::BernoulliVarProb
        | DrawKind::BinomialVarTrials
        | DrawKind::NegBinomialVarSuccesses
        | DrawKind::PoissonVarRate => variable(words, n, next),
        DrawKind::Binomial | DrawKind::Categorical | DrawKind::NegBinomial => {
            Ok((small(words, next)?, 0))
        }
        DrawKind::Uniform => Ok((interval(words, next)?, 0)),
        DrawKind::Exponential | DrawKind::Gamma | DrawKind::UniformCont => {
            Err(Fault::NoDraw.at(at))
        }
    }
}
