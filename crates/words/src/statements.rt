// Statements, and lists of them. What holds a list reads it one level deeper.
#![tactic(auto, using(crate::proofs::Readings::one_less), unfolding(crate::specs::Words::seen, crate::specs::Words::after, paper::specs::Reader::and_read, paper::specs::Reader::if_read, paper::specs::Reader::by_kind, paper::specs::Reader::unroll, paper::specs::Reader::given, paper::specs::Reader::block, paper::specs::Reader::branch, paper::specs::Reader::normalize, paper::specs::Reader::statement, paper::specs::Used::used, paper::specs::Reader::many, crate::proofs::Readings::raised))]

ghost use Rattle.std.specs.Prelude.{◌≡◌, ◌-◌, ◌<◌};
ghost use Rattle.paper.specs.Reader as reader;
ghost use Rattle.paper.specs.Used.{used as variables_used, used_statement};
ghost use Rattle.words.specs.Words.{seen, after};

use crate::events::event;
use crate::kinds::StatementKind;
use crate::plain::{assign, decrement, sample};
use crate::single::{flag, many, most, variable, word};
use states::{Fault, Refusal};

// Has, unroll: over its limit it is refused as such even where `has` is 0.
fn unroll(words: &[u64], at: usize) -> Result<usize, Refusal>
    ensures { result ≡ after (reader.unroll words.now at) }
{
    let (turns_at, has) = flag(words, at)?;
    let (next, turns) = most(words, 10000, Fault::OverLimit, turns_at)?;
    if has || turns == 0 {
        Ok(next)
    } else {
        Err(Fault::NoProgram.at(turns_at))
    }
}

// A count of at most 8, and that many variables; they are not counted as used.
fn given(words: &[u64], n: usize, at: usize) -> Result<usize, Refusal>
    ensures { result ≡ after (reader.given words.now n at) }
{
    let (first_at, count) = most(words, 8, Fault::OverLimit, at)?;
    many(count, first_at, |p| Ok(variable(words, n, p)?.0))
}

// A count, then that many statements.
#[cycle(blocks)]
pub fn block(
    words: &[u64],
    n: usize,
    deep: usize,
    loops: usize,
    at: usize,
) -> Result<(usize, u64), Refusal>
    ensures { result ≡ seen variables_used (reader.block words.now (reader.statement words.now n deep loops) at) }
{
    let (mut next, count) = word(words, at)?;
    let mut most_used = 0;
    for _ in 0..count {
        let (after, used) = statement(words, n, deep, loops, next)?;
        next = after;
        most_used = most_used.max(used);
    }
    Ok((next, most_used))
}

// An event, a then-list, an else-list.
#[cycle(blocks)]
fn branch(
    words: &[u64],
    n: usize,
    deep: usize,
    loops: usize,
    at: usize,
) -> Result<(usize, u64), Refusal>
    requires { 0 < deep }
    ensures { result ≡ seen used_statement (reader.branch words.now n (reader.statement words.now n (deep - 1) loops) deep at) }
{
    let (then_at, event_used) = event(words, n, deep, at)?;
    let (else_at, then_used) = block(words, n, deep - 1, loops, then_at)?;
    let (next, else_used) = block(words, n, deep - 1, loops, else_at)?;
    Ok((next, event_used.max(then_used.max(else_used))))
}

// Has, unroll, an event, a body with one loop less to nest.
#[cycle(blocks)]
#[tactic(auto, using(crate::proofs::Readings::while_is), unfolding(crate::specs::Words::seen, crate::specs::Words::after, paper::specs::Reader::and_read, paper::specs::Used::used_statement))]
fn while_loop(
    words: &[u64],
    n: usize,
    deep: usize,
    loops: usize,
    at: usize,
) -> Result<(usize, u64), Refusal>
    requires { (0 < deep) × (0 < loops) }
    ensures { result ≡ seen used_statement (reader.while words.now n (reader.statement words.now n (deep - 1) (loops - 1)) deep at) }
{
    let event_at = unroll(words, at)?;
    let (body_at, event_used) = event(words, n, deep, event_at)?;
    let (next, body_used) = block(words, n, deep - 1, loops - 1, body_at)?;
    Ok((next, event_used.max(body_used)))
}

// Given variables, a body.
#[cycle(blocks)]
fn normalize(
    words: &[u64],
    n: usize,
    deep: usize,
    loops: usize,
    at: usize,
) -> Result<(usize, u64), Refusal>
    requires { 0 < deep }
    ensures { result ≡ seen used_statement (reader.normalize words.now n (reader.statement words.now n (deep - 1) loops) at) }
{
    let body_at = given(words, n, at)?;
    block(words, n, deep - 1, loops, body_at)
}

// A statement that may still nest `deep` deep, and `loops` loops deep.
#[cycle(blocks)]
fn statement(
    words: &[u64],
    n: usize,
    deep: usize,
    loops: usize,
    at: usize,
) -> Result<(usize, u64), Refusal>
    ensures { result ≡ seen used_statement (reader.statement words.now n deep loops at) }
{
    let (next, kind) = word(words, at)?;
    if deep == 0 {
        return Err(Fault::OverLimit.at(at));
    }
    match StatementKind::of(kind).ok_or(Fault::NoProgram.at(at))? {
        StatementKind::Sample => sample(words, n, next),
        StatementKind::Assign => assign(words, n, next),
        StatementKind::Decrement => decrement(words, n, next),
        StatementKind::IfThenElse => branch(words, n, deep, loops, next),
        StatementKind::While if loops == 0 => Err(Fault::OverLimit.at(at)),
        StatementKind::While => while_loop(words, n, deep, loops, next),
        StatementKind::Fail => Ok((next, 0)),
        StatementKind::Normalize => normalize(words, n, deep, loops, next),
    }
}
