// Events.
#![tactic(auto, using(crate::proofs::Readings::one_less), unfolding(crate::specs::Words::seen, crate::specs::Words::after, paper::specs::Reader::and_read, paper::specs::Reader::by_kind, paper::specs::Reader::set, paper::specs::Reader::comparison, paper::specs::Reader::datum, paper::specs::Reader::events, paper::specs::Reader::event, paper::specs::Used::used_event, paper::specs::Reader::many, crate::proofs::Readings::raised))]

ghost use Rattle.std.specs.Prelude.{◌≡◌};
ghost use Rattle.paper.specs.Reader as reader;
ghost use Rattle.paper.specs.Used.{used_event, used_events};
ghost use Rattle.words.specs.Words.{seen};

use crate::draws::draw;
use crate::kinds::EventKind;
use crate::single::{many, most, small, variable, word};
use states::{Fault, Refusal};

// A variable, a count of at most 256, and that many values.
fn set(words: &[u64], n: usize, at: usize) -> Result<(usize, u64), Refusal>
    ensures { result ≡ seen used_event (reader.set words.now n at) }
{
    let (count_at, used) = variable(words, n, at)?;
    let (values_at, count) = most(words, 256, Fault::OverLimit, count_at)?;
    let next = many(count, values_at, |p| small(words, p))?;
    Ok((next, used))
}

// Two variables.
fn comparison(words: &[u64], n: usize, at: usize) -> Result<(usize, u64), Refusal>
    ensures { result ≡ seen used_event (reader.comparison words.now n at) }
{
    let (right_at, left_used) = variable(words, n, at)?;
    let (next, right_used) = variable(words, n, right_at)?;
    Ok((next, left_used.max(right_used)))
}

// A value and a draw.
fn datum(words: &[u64], n: usize, at: usize) -> Result<(usize, u64), Refusal>
    ensures { result ≡ seen used_event (reader.datum words.now n at) }
{
    let draw_at = small(words, at)?;
    draw(words, n, draw_at)
}

// A count, then that many events.
#[cycle(events)]
fn events(words: &[u64], n: usize, deep: usize, at: usize) -> Result<(usize, u64), Refusal>
    ensures { result ≡ seen used_events (reader.events words.now (reader.event words.now n deep) at) }
{
    let (mut next, count) = word(words, at)?;
    let mut most_used = 0;
    for _ in 0..count {
        let (after, used) = event(words, n, deep, next)?;
        next = after;
        most_used = most_used.max(used);
    }
    Ok((next, most_used))
}

// An event that may still nest `deep` deep.
#[cycle(events)]
pub fn event(words: &[u64], n: usize, deep: usize, at: usize) -> Result<(usize, u64), Refusal>
    ensures { result ≡ seen used_event (reader.event words.now n deep at) }
{
    let (next, kind) = word(words, at)?;
    if deep == 0 {
        return Err(Fault::OverLimit.at(at));
    }
    match EventKind::of(kind).ok_or(Fault::NoProgram.at(at))? {
        EventKind::InSet => set(words, n, next),
        EventKind::VarComparison => comparison(words, n, next),
        EventKind::DataFromDist => datum(words, n, next),
        EventKind::Complement => event(words, n, deep - 1, next),
        EventKind::Intersection => events(words, n, deep - 1, next),
    }
}
