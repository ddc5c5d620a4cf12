// Statements that hold neither events nor statements: draws, assigns, decrements.
#![tactic(auto, unfolding(crate::specs::Words::seen, crate::specs::Words::after, paper::specs::Reader::and_read, paper::specs::Reader::if_read, paper::specs::Reader::sample, paper::specs::Reader::addend, paper::specs::Reader::assign, paper::specs::Reader::decrement, paper::specs::Used::used_statement))]

ghost use Rattle.std.specs.Prelude.{◌≡◌};
ghost use Rattle.paper.specs.Reader as reader;
ghost use Rattle.paper.specs.Used.{used_addend, used_statement};
ghost use Rattle.words.specs.Words.{seen};

use crate::draws::draw;
use crate::single::{flag, nought, small, variable};
use states::Refusal;

// Variable, add, draw.
pub fn sample(words: &[u64], n: usize, at: usize) -> Result<(usize, u64), Refusal>
    ensures { result ≡ seen used_statement (reader.sample words.now n at) }
{
    let (add_at, var_used) = variable(words, n, at)?;
    let (draw_at, _) = flag(words, add_at)?;
    let (next, draw_used) = draw(words, n, draw_at)?;
    Ok((next, draw_used.max(var_used)))
}

// Has, factor, w: with `has` 0 the two words after it are 0 and name no variable.
fn addend(words: &[u64], n: usize, at: usize) -> Result<(usize, u64), Refusal>
    ensures { result ≡ seen used_addend (reader.addend words.now n at) }
{
    let (factor_at, has) = flag(words, at)?;
    if has {
        let var_at = small(words, factor_at)?;
        variable(words, n, var_at)
    } else {
        let var_at = nought(words, factor_at)?;
        Ok((nought(words, var_at)?, 0))
    }
}

// Variable, add, has, factor, w, offset.
pub fn assign(words: &[u64], n: usize, at: usize) -> Result<(usize, u64), Refusal>
    ensures { result ≡ seen used_statement (reader.assign words.now n at) }
{
    let (add_at, var_used) = variable(words, n, at)?;
    let (has_at, _) = flag(words, add_at)?;
    let (offset_at, addend_used) = addend(words, n, has_at)?;
    let next = small(words, offset_at)?;
    Ok((next, var_used.max(addend_used)))
}

// Variable, offset.
pub fn decrement(words: &[u64], n: usize, at: usize) -> Result<(usize, u64), Refusal>
    ensures { result ≡ seen used_statement (reader.decrement words.now n at) }
{
    let (offset_at, used) = variable(words, n, at)?;
    let next = small(words, offset_at)?;
    Ok((next, used))
}
