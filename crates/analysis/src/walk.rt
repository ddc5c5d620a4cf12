// Lists, statements, loops and normalize: they call one another over parts of the words.
// What ties a part to the setting or to the marks stands in each contract: no type of one of the two can hold it.
ghost use Rattle.std.specs.Prelude.{◌≡◌, ℕ, ◌+◌, ◌≤◌, ◌<◌, length, get_or, IfOk, IfSome};
ghost use Rattle.analysis.specs.Loops as loops;
ghost use Rattle.analysis.specs.Noted as noted;
ghost use Rattle.analysis.specs.Noted.{Says, setting_of};
ghost use Rattle.analysis.specs.Outcomes.{answer_by, in_place, a_pass, a_search, a_stage, both_stages, a_loop};
ghost use Rattle.analysis.specs.Parts.{LoopIs, LoopAt, LoopWithin, GivenAre};
ghost use Rattle.paper.specs.Code as code;
ghost use Rattle.paper.specs.Rules as rules;
ghost use Rattle.paper.specs.Tree.{Unroll, Event, Statement, Statements, While};
ghost use Rattle.states.specs.States as states;
ghost use Rattle.words.specs.Parts.{ListIs, StatementIs};

use crate::parts::{Branch, Loop, Normalize, statement_at};
use crate::stages::{Growth, Settled, Settling, Sought};
use crate::{LoopAnswer, plain};
use events::{Part, Setting, event};
use ranges::Range;
use states::{Fault, Refusal, State};
use words::kinds::StatementKind;

// A state goes over the list that the part is: a count, then that many statements.
#[cycle(walk)]
pub fn list(
    part: Part,
    setting: Setting,
    state: &mut State,
    marks: &mut [u8],
) -> Result<(), Refusal>
    requires list_is { ListIs setting.n part.words.now }
    requires within_marks { part.base + length part.words.now ≤ length marks.old }
    ensures { (t : Statements) → part.entry.words.now ≡ code.program t → Says (noted.list (setting_of setting) (part.entry.base + 1) t state.old) (in_place state.new result) marks.old marks.new }
{
    let mut at = 1;
    for _ in 0..part.words[0] {
        let next = statement_at(part, at);
        statement(next, setting, state, marks)?;
        at += next.words.len();
    }
    Ok(())
}

// A branch or a body: a list that is marked at its count where it is entered with a state that is not empty.
#[cycle(walk)]
fn block(part: Part, setting: Setting, state: &mut State, marks: &mut [u8]) -> Result<(), Refusal>
    requires list_is { ListIs setting.n part.words.now }
    requires within_marks { part.base + length part.words.now ≤ length marks.old }
    ensures { (t : Statements) → part.entry.words.now ≡ code.program t → Says (noted.block (setting_of setting) part.entry.base t state.old) (in_place state.new result) marks.old marks.new }
{
    if state.is_live() {
        marks[part.base] = 1;
    }
    list(part, setting, state, marks)
}

#[cycle(walk)]
fn statement(
    part: Part,
    setting: Setting,
    state: &mut State,
    marks: &mut [u8],
) -> Result<(), Refusal>
    requires statement_is { StatementIs setting.n part.words.now }
    requires within_marks { part.base + length part.words.now ≤ length marks.old }
    ensures { (c : Statement) → part.entry.words.now ≡ code.statement c → Says (noted.statement (setting_of setting) part.entry.base c state.old) (in_place state.new result) marks.old marks.new }
{
    match StatementKind::of(part.words[0]).unwrap() {
        StatementKind::IfThenElse => branch(part, setting, state, marks),
        StatementKind::While => while_loop(part, setting, state, marks),
        StatementKind::Fail => {
            *state = State::Empty;
            Ok(())
        }
        StatementKind::Normalize => {
            let parts = Normalize::of(part);
            normalize(parts.given, parts.body, setting, state, marks)
        }
        _ => plain::change(part, setting, state),
    }
}

#[cycle(walk)]
fn branch(part: Part, setting: Setting, state: &mut State, marks: &mut [u8]) -> Result<(), Refusal>
    requires statement_is { StatementIs setting.n part.words.now }
    requires if_kind { get_or part.words.now 0 0 ≡ 4 }
    requires within_marks { part.base + length part.words.now ≤ length marks.old }
    ensures { (c : Statement) → part.entry.words.now ≡ code.statement c → Says (noted.statement (setting_of setting) part.entry.base c state.old) (in_place state.new result) marks.old marks.new }
{
    let parts = Branch::of(part);
    let mut sides = event::sides(parts.event, setting.n, state)?;
    block(parts.then, setting, &mut sides.yes, marks)?;
    block(parts.otherwise, setting, &mut sides.no, marks)?;
    *state = sides.yes.join(&sides.no, setting.n);
    Ok(())
}

// A loop as a statement gives its joined exits.
#[cycle(walk)]
fn while_loop(
    part: Part,
    setting: Setting,
    state: &mut State,
    marks: &mut [u8],
) -> Result<(), Refusal>
    requires loop_is { LoopIs setting.n part.words.now }
    requires within_marks { part.base + length part.words.now ≤ length marks.old }
    ensures { (u : Unroll) (e : Event) (b : Statements) → part.entry.words.now ≡ code.statement (While u e b) → Says (noted.statement (setting_of setting) part.entry.base (While u e b) state.old) (in_place state.new result) marks.old marks.new }
{
    let answer = looped(part, setting, state, marks)?;
    *state = answer.exits;
    Ok(())
}

// A pass splits by the event; the body over the true side is the new state, the false side the exit, which it gives.
#[cycle(walk)]
fn pass(
    parts: Loop,
    setting: Setting,
    state: &mut State,
    marks: &mut [u8],
) -> Result<State, Refusal>
    requires loop_within { LoopWithin setting.n parts }
    requires within_marks { parts.body.base + length parts.body.words.now ≤ length marks.old }
    ensures { (at : ℕ) (e : Event) (b : Statements) → LoopAt at e b parts.entry → Says (noted.pass (setting_of setting) at e b state.old) (answer_by (a_pass state.new) result) marks.old marks.new }
{
    let sides = event::sides(parts.event, setting.n, state)?;
    *state = sides.yes;
    block(parts.body, setting, state, marks)?;
    Ok(sides.no)
}

// The search leaves its loop at the first pass whose new state equals the old, with the index of that pass. It joins the exits on its way.
#[cycle(walk)]
fn search(
    parts: Loop,
    setting: Setting,
    state: &mut State,
    marks: &mut [u8],
) -> Result<Sought, Refusal>
    requires loop_within { LoopWithin setting.n parts }
    requires within_marks { parts.body.base + length parts.body.words.now ≤ length marks.old }
    ensures says { (at : ℕ) (e : Event) (b : Statements) → LoopAt at e b parts.entry → Says (noted.sought (setting_of setting) at e b 100 0 (record { next = state.old; exit = states.empty })) (answer_by (a_search state.new) result) marks.old marks.new }
    ensures few { IfOk result (λ sought. IfSome sought.found (λ i. i < 100)) }
{
    let mut exits = State::Empty;
    for i in 0..100 {
        let mut next = *state;
        let exit = pass(parts, setting, &mut next, marks)?;
        exits = exits.join(&exit, setting.n);
        if state.same(&next, setting.n) {
            return Ok(Sought {
                found: Some(i),
                exits,
            });
        }
        *state = next;
    }
    Ok(Sought { found: None, exits })
}

// The loop's own unrolled passes. It gives their joined exits.
#[cycle(walk)]
fn unrolled(
    parts: Loop,
    setting: Setting,
    state: &mut State,
    marks: &mut [u8],
) -> Result<State, Refusal>
    requires loop_within { LoopWithin setting.n parts }
    requires within_marks { parts.body.base + length parts.body.words.now ≤ length marks.old }
    ensures { (at : ℕ) (e : Event) (b : Statements) → LoopAt at e b parts.entry → Says (noted.unrolled (setting_of setting) at e b parts.entry.turns (record { next = state.old; exit = states.empty })) (answer_by (a_pass state.new) result) marks.old marks.new }
{
    let mut exits = State::Empty;
    for _ in 0..parts.turns {
        let exit = pass(parts, setting, state, marks)?;
        exits = exits.join(&exit, setting.n);
    }
    Ok(exits)
}

// Up to so many passes by which a state grows: stop if new lies within old.
#[cycle(walk)]
fn growing(
    parts: Loop,
    setting: Setting,
    growth: Growth,
    most: usize,
    state: &mut State,
    marks: &mut [u8],
) -> Result<Settling, Refusal>
    requires loop_within { LoopWithin setting.n parts }
    requires within_marks { parts.body.base + length parts.body.words.now ≤ length marks.old }
    ensures { (at : ℕ) (e : Event) (b : Statements) → LoopAt at e b parts.entry → Says (noted.growing (setting_of setting) at e b (loops.grow growth setting.n) most 0 state.old) (answer_by (a_stage state.new) result) marks.old marks.new }
{
    for i in 0..most {
        let mut next = *state;
        pass(parts, setting, &mut next, marks)?;
        if next.within(state, setting.n) {
            return Ok(Settling {
                settled: true,
                passes: i + 1,
            });
        }
        *state = growth.grow(*state, &next, setting.n);
    }
    Ok(Settling {
        settled: false,
        passes: most,
    })
}

// Up to 100 joining passes, then widening passes where they did not settle.
#[cycle(walk)]
fn settle(
    parts: Loop,
    setting: Setting,
    state: &mut State,
    marks: &mut [u8],
) -> Result<Settled, Refusal>
    requires loop_within { LoopWithin setting.n parts }
    requires within_marks { parts.body.base + length parts.body.words.now ≤ length marks.old }
    ensures { (at : ℕ) (e : Event) (b : Statements) → LoopAt at e b parts.entry → Says (noted.settle (setting_of setting) at e b state.old) (answer_by (both_stages state.new) result) marks.old marks.new }
{
    let joining = growing(parts, setting, Growth::Join, 100, state, marks)?;
    if joining.settled {
        return Ok(Settled {
            joined: joining.passes,
            widened: 0,
        });
    }
    let most = 2 * setting.n + 1;
    let widening = growing(parts, setting, Growth::Widen, most, state, marks)?;
    Ok(Settled {
        joined: joining.passes,
        widened: widening.passes,
    })
}

// A search that found a pass no sooner than the loop's own turns has made every pass there is: from the state found, a pass gives that state again.
// Else the loop's own turns are unrolled and the stages settle; the result is the joined exits with the settled state's exit, which is the event's false side.
#[cycle(walk)]
pub fn looped(
    part: Part,
    setting: Setting,
    state: &State,
    marks: &mut [u8],
) -> Result<LoopAnswer, Refusal>
    requires loop_is { LoopIs setting.n part.words.now }
    requires within_marks { part.base + length part.words.now ≤ length marks.old }
    ensures { (u : Unroll) (e : Event) (b : Statements) → part.entry.words.now ≡ code.statement (While u e b) → Says (noted.loop (setting_of setting) part.entry.base e b (rules.turns (setting_of setting) u) state.now) (answer_by a_loop result) marks.old marks.new }
{
    let parts = Loop::of(part, setting);
    let mut turned = *state;
    let sought = search(parts, setting, &mut turned, marks)?;
    let searched = match sought.found {
        Some(i) if parts.turns <= i => {
            return Ok(LoopAnswer {
                exits: sought.exits,
                turned,
                settled: turned,
                searched: i + 1,
                unrolls: i,
                joined: 1,
                widened: 0,
            });
        }
        Some(i) => i + 1,
        None => 100,
    };
    turned = *state;
    let exits = unrolled(parts, setting, &mut turned, marks)?;
    let mut settled = turned;
    let passes = settle(parts, setting, &mut settled, marks)?;
    let last = event::sides(parts.event, setting.n, &settled)?;
    Ok(LoopAnswer {
        exits: exits.join(&last.no, setting.n),
        turned,
        settled,
        searched,
        unrolls: parts.turns,
        joined: passes.joined,
        widened: passes.widened,
    })
}

// The first and the last value of a given variable; no finite range is refused at its place, and so are more than 4,096 values.
fn values(state: &State, variable: usize, place: usize) -> Result<(u32, u32), Refusal>
    ensures { result ≡ loops.values place (states.is_live state.now) (states.get state.now variable) }
{
    if !state.is_live() {
        return Err(Fault::Unbounded.at(place));
    }
    let Range::Span(start, Some(last)) = state.get(variable) else {
        return Err(Fault::Unbounded.at(place));
    };
    let last = last.max(start);
    if 4096 <= last - start {
        return Err(Fault::TooMany.at(place));
    }
    Ok((start, last))
}

// The given variables are peeled off one at a time: each value of the first is set as a point, the rest enumerated, the results joined.
#[cycle(walk)]
fn normalize(
    given: Part,
    body: Part,
    setting: Setting,
    state: &mut State,
    marks: &mut [u8],
) -> Result<(), Refusal>
    requires given_are { GivenAre setting.n given.words.now }
    requires list_is { ListIs setting.n body.words.now }
    requires within_marks { body.base + length body.words.now ≤ length marks.old }
    ensures { (b : Statements) → body.entry.words.now ≡ code.program b → Says (noted.normalized (setting_of setting) given.entry.base given.entry.words.now body.entry.base b state.old) (in_place state.new result) marks.old marks.new }
{
    if given.words.is_empty() {
        return list(body, setting, state, marks);
    }
    let variable = given.words[0] as usize;
    let (start, last) = values(state, variable, given.base)?;
    let rest = given.rest(1);
    let mut joined = State::Empty;
    for x in start..=last {
        let mut one = *state;
        one.put(variable, Range::point(x));
        normalize(rest, body, setting, &mut one, marks)?;
        joined = joined.join(&one, setting.n);
    }
    *state = joined;
    Ok(())
}
