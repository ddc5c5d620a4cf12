// Plain statements: draws, assigns and decrements.
ghost use Rattle.std.specs.Prelude.{◌≡◌, Some, cond, ◌<◌, eqb, get_or};
ghost use Rattle.analysis.specs.Noted.{setting_of};
ghost use Rattle.analysis.specs.Outcomes.{in_place};
ghost use Rattle.paper.specs.Code as code;
ghost use Rattle.paper.specs.Rules as rules;
ghost use Rattle.paper.specs.Tree.{Statement};
ghost use Rattle.ranges.specs.Ranges as ranges;
ghost use Rattle.words.specs.Parts.{StatementIs};

use events::draws::drawn;
use events::{Part, Setting};
use ranges::Range;
use states::{Fault, Refusal, State};
use words::kinds::StatementKind;

// What a draw or an assign begins with: the variable's range if `add`, a word that is 0 or 1, is 1, else [0,0].
fn kept(add: u64, own: Range) -> Range
    ensures { result ≡ cond (eqb add 1) own (ranges.point 0) }
{
    if add == 1 { own } else { Range::zero() }
}

// The factor times the range of w, or [0,0] where `has`, a word that is 0 or 1, is 0.
fn product(has: u64, factor: u32, read: Range) -> Option<Range>
    ensures { result ≡ cond (eqb has 0) (Some (ranges.point 0)) (ranges.times read factor) }
{
    if has == 0 {
        Some(Range::zero())
    } else {
        read.times(factor)
    }
}

// A state goes over a plain statement. An empty one stays as it is.
#[tactic(auto, unfolding(paper::specs::Code::statement, paper::specs::Rules::statement, paper::specs::Limits::AddendIn))]
pub fn change(part: Part, setting: Setting, state: &mut State) -> Result<(), Refusal>
    requires statement_is { StatementIs setting.n part.words.now }
    requires plain_kind { get_or part.words.now 0 0 < 4 }
    ensures { (c : Statement) → part.entry.words.now ≡ code.statement c → in_place state.new result ≡ rules.statement (setting_of setting) part.entry.base c state.old }
{
    if !state.is_live() {
        return Ok(());
    }
    let words = part.words;
    let variable = words[1] as usize;
    let own = state.get(variable);
    let range = match StatementKind::of(words[0]).unwrap() {
        StatementKind::Sample => kept(words[2], own).sum(drawn(part.rest(3).words, setting.n)),
        StatementKind::Assign => {
            let first = kept(words[2], own);
            let read = state.get(words[5] as usize);
            let offset = Range::point(words[6] as u32);
            let product = product(words[3], words[4] as u32, read);
            first
                .sum(product.ok_or(Fault::Overflow.at(part.base))?)
                .sum(offset)
        }
        _ => own.less(words[2] as u32),
    };
    state.put(variable, range);
    Ok(())
}
