// Where draws, events, statements and lists end. Checked words are the code of a tree, so they ask for one at their place.
ghost use Rattle.std.specs.Prelude.{◌≡◌, ◌+◌, length};
ghost use Rattle.paper.specs.Tree.{Draw, Event, Events, Statement, Statements};
ghost use Rattle.paper.specs.Code as code;
ghost use Rattle.words.specs.Parts.{Begins, conjunction, DrawAt, EventAt, EventsAt, StatementAt, ListAt};

use crate::kinds::{DrawKind, EventKind, StatementKind};

// The index after the draw at `at`.
pub fn draw_end(words: &[u64], at: usize) -> usize
    requires { DrawAt words.now at }
    ensures { (d : Draw) → Begins words.now at (code.draw d) → result ≡ at + length (code.draw d) }
{
    match DrawKind::of(words[at]).unwrap() {
        DrawKind::Dirac | DrawKind::Uniform => at + 3,
        DrawKind::Bernoulli | DrawKind::Geometric | DrawKind::Poisson => at + 1,
        _ => at + 2,
    }
}

// The index after the event at `at`.
#[cycle(event_ends)]
#[tactic(auto, using(crate::proofs::Held::event_rules))]
pub fn event_end(words: &[u64], at: usize) -> usize
    requires { EventAt words.now at }
    ensures { (e : Event) → Begins words.now at (code.event e) → result ≡ at + length (code.event e) }
{
    match EventKind::of(words[at]).unwrap() {
        EventKind::InSet => at + 3 + words[at + 2] as usize,
        EventKind::VarComparison => at + 3,
        EventKind::DataFromDist => draw_end(words, at + 2),
        EventKind::Complement => event_end(words, at + 1),
        EventKind::Intersection => events_end(words, at + 1),
    }
}

// The index after the list of events whose count is at `at`.
#[cycle(event_ends)]
#[tactic(auto, using(crate::proofs::Held::events_rules))]
pub fn events_end(words: &[u64], at: usize) -> usize
    requires { EventsAt words.now at }
    ensures { (es : Events) → Begins words.now at (conjunction es) → result ≡ at + length (conjunction es) }
{
    let mut next = at + 1;
    for _ in 0..words[at] {
        next = event_end(words, next);
    }
    next
}

// The index after the statement at `at`.
#[cycle(list_ends)]
#[tactic(auto, using(crate::proofs::Held::statement_rules))]
pub fn statement_end(words: &[u64], at: usize) -> usize
    requires { StatementAt words.now at }
    ensures { (c : Statement) → Begins words.now at (code.statement c) → result ≡ at + length (code.statement c) }
{
    match StatementKind::of(words[at]).unwrap() {
        StatementKind::Sample => draw_end(words, at + 3),
        StatementKind::Assign => at + 7,
        StatementKind::Decrement => at + 3,
        StatementKind::IfThenElse => {
            let then_at = event_end(words, at + 1);
            let else_at = list_end(words, then_at);
            list_end(words, else_at)
        }
        StatementKind::While => {
            let body_at = event_end(words, at + 3);
            list_end(words, body_at)
        }
        StatementKind::Fail => at + 1,
        StatementKind::Normalize => {
            let given = words[at + 1] as usize;
            list_end(words, at + 2 + given)
        }
    }
}

// The index after the list whose count is at `at`.
#[cycle(list_ends)]
#[tactic(auto, using(crate::proofs::Held::list_rules))]
pub fn list_end(words: &[u64], at: usize) -> usize
    requires { ListAt words.now at }
    ensures { (cs : Statements) → Begins words.now at (code.program cs) → result ≡ at + length (code.program cs) }
{
    let mut next = at + 1;
    for _ in 0..words[at] {
        next = statement_end(words, next);
    }
    next
}
