// Both sides of an event, from the part of the words that codes it.
ghost use Rattle.std.specs.Prelude.{◌≡◌, ℕ, ◌+◌, ◌≤◌, drop, length, slice_index};
ghost use Rattle.events.specs.Sided.{sided};
ghost use Rattle.paper.specs.Code as code;
ghost use Rattle.paper.specs.Rules as rules;
ghost use Rattle.paper.specs.Tree.{Event, Events};
ghost use Rattle.ranges.specs.Ranges as ranges;
ghost use Rattle.states.specs.Answers.{Gives, and_then};
ghost use Rattle.states.specs.States as states;
ghost use Rattle.words.specs.Parts.{conjunction, EventIs, EventsAre};

use crate::{Part, Sides};
use states::{Fault, Refusal, State};
use words::ends;
use words::kinds::EventKind;

// Event 1: what retain and remove leave of its variable's range, or 8. An empty state stays as it is.
fn in_set(part: Part, state: &State) -> Result<Sides, Refusal>
    requires { 3 ≤ length part.words.now }
    ensures { let variable = slice_index part.entry.words.now 1 in let values = drop 3 part.entry.words.now in result ≡ sided (rules.cut part.entry.base state.now variable values (ranges.remove (states.get state.now variable) values)) }
{
    let mut sides = Sides {
        yes: *state,
        no: *state,
    };
    if state.is_live() {
        let variable = part.words[1] as usize;
        let values = part.rest(3).words;
        let range = state.get(variable);
        let others = range.remove(values).ok_or(Fault::Overflow.at(part.base))?;
        sides.yes.put(variable, range.retain(values));
        sides.no.put(variable, others);
    }
    Ok(sides)
}

// Both sides of the event that the part is, by the rules for every unroll.
#[cycle(event_sides)]
#[tactic(auto, using(crate::proofs::Steps::of_event), unfolding(paper::specs::Code::event))]
pub fn sides(part: Part, n: usize, state: &State) -> Result<Sides, Refusal>
    requires { EventIs n part.words.now }
    ensures { (u : ℕ) (e : Event) → part.entry.words.now ≡ code.event e → result ≡ sided (rules.event (record { n = n; unroll = u }) part.entry.base e state.now) }
{
    match EventKind::of(part.words[0]).unwrap() {
        EventKind::InSet => in_set(part, state),
        EventKind::VarComparison | EventKind::DataFromDist => Ok(Sides {
            yes: *state,
            no: *state,
        }),
        EventKind::Complement => complement(part.rest(1), n, state),
        EventKind::Intersection => intersection(part.rest(1), n, state),
    }
}

// The sides of the event that the part is, exchanged. Apart from `sides`, which would clear 2 KB at every event for the answer that is here.
#[cycle(event_sides)]
fn complement(part: Part, n: usize, state: &State) -> Result<Sides, Refusal>
    requires { EventIs n part.words.now }
    ensures { (u : ℕ) (e : Event) → part.entry.words.now ≡ code.event e → result ≡ sided (and_then (rules.event (record { n = n; unroll = u }) part.entry.base e state.now) (λ t. Gives (rules.exchanged t))) }
{
    let inner = sides(part, n, state)?;
    Ok(Sides {
        yes: inner.no,
        no: inner.yes,
    })
}

// A count, then that many events: on with the true side, the false sides joined from empty.
#[cycle(event_sides)]
#[tactic(auto, using(crate::proofs::Steps::of_events))]
fn intersection(part: Part, n: usize, state: &State) -> Result<Sides, Refusal>
    requires { EventsAre n part.words.now }
    ensures { (u : ℕ) (es : Events) → part.entry.words.now ≡ conjunction es → result ≡ sided (rules.events (record { n = n; unroll = u }) (part.entry.base + 1) es (record { yes = state.now; no = states.empty })) }
{
    let mut yes = *state;
    let mut no = State::Empty;
    let mut at = 1;
    for _ in 0..part.words[0] {
        let end = ends::event_end(part.words, at);
        let next = sides(part.cut(at, end), n, &yes)?;
        yes = next.yes;
        no = no.join(&next.no, n);
        at = end;
    }
    Ok(Sides { yes, no })
}
