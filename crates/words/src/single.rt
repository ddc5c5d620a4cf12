// Single words.
#![tactic(auto, unfolding(crate::specs::Words::seen, crate::specs::Words::after, paper::specs::Reader::and_read, paper::specs::Reader::if_read, paper::specs::Reader::word, paper::specs::Reader::unless, paper::specs::Reader::flag))]

ghost use Rattle.std.specs.Prelude.{◌≡◌, ℕ, [], ◌∷◌};
ghost use Rattle.paper.specs.Reader as reader;
ghost use Rattle.paper.specs.Reader.{Reading};
ghost use Rattle.states.specs.Answers.{number_of};
ghost use Rattle.words.specs.Words.{seen, after, itself, one_more, Reads};

use states::{Fault, Refusal};

// Any word. The only function of the check that reads the words.
pub fn word(words: &[u64], at: usize) -> Result<(usize, u64), Refusal>
    ensures { result ≡ seen itself (reader.word words.now at) }
{
    match words.get(at) {
        Some(&word) => Ok((at + 1, word)),
        None => Err(Fault::NoProgram.at(words.len())),
    }
}

// A word of at most `limit`, or the refusal of that fault.
pub fn most(words: &[u64], limit: u64, fault: Fault, at: usize) -> Result<(usize, u64), Refusal>
    ensures { result ≡ seen itself (reader.most words.now limit (number_of fault) at) }
{
    let (next, x) = word(words, at)?;
    if x <= limit {
        Ok((next, x))
    } else {
        Err(fault.at(at))
    }
}

// A value of 32 bits.
pub fn small(words: &[u64], at: usize) -> Result<usize, Refusal>
    ensures { result ≡ after (reader.small words.now at) }
{
    let (next, _) = most(words, u64::from(u32::MAX), Fault::NoProgram, at)?;
    Ok(next)
}

// A word that has to be 0.
pub fn nought(words: &[u64], at: usize) -> Result<usize, Refusal>
    ensures { result ≡ after (reader.nought words.now at) }
{
    let (next, _) = most(words, 0, Fault::NoProgram, at)?;
    Ok(next)
}

// 0 or 1.
pub fn flag(words: &[u64], at: usize) -> Result<(usize, bool), Refusal>
    ensures { result ≡ seen itself (reader.flag words.now at) }
{
    let (next, x) = most(words, 1, Fault::NoProgram, at)?;
    Ok((next, x == 1))
}

// A variable, and how many variables it takes to have it.
pub fn variable(words: &[u64], n: usize, at: usize) -> Result<(usize, u64), Refusal>
    ensures { result ≡ seen one_more (reader.variable words.now n at) }
{
    let (next, x) = word(words, at)?;
    if x < n as u64 {
        Ok((next, x + 1))
    } else {
        Err(Fault::NoVariable.at(at))
    }
}

// As many words as `count` says, each read by `one`. A count past the words ends with them.
#[tactic(auto, unfolding(crate::specs::Words::after, paper::specs::Reader::many))]
pub fn many<F: Fn(usize) -> Result<usize, Refusal>>(
    count: u64,
    at: usize,
    one: F,
) -> Result<usize, Refusal>
    requires { F.IsAlwaysCallable one }
    ensures { (read : ℕ → Reading ℕ) → Reads (F.post one) read → result ≡ after (reader.many [] ◌∷◌ read count at) }
{
    let mut next = at;
    for _ in 0..count {
        next = one(next)?;
    }
    Ok(next)
}
