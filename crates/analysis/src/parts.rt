// The parts of checked words, cut where the code of a tree has them.
ghost use Rattle.std.specs.Prelude.{◌≡◌, ◌+◌, length};
ghost use Rattle.analysis.specs.Noted.{setting_of};
ghost use Rattle.analysis.specs.Parts.{OfKind, LoopIs, BranchOf, LoopOf, NormalizeOf};
ghost use Rattle.paper.specs.Code as code;
ghost use Rattle.paper.specs.Tree.{Unroll, Event, Statement, Statements, While};
ghost use Rattle.words.specs.Parts.{Begins, StatementAt};

use events::{Part, Setting};
use words::ends;

// The statement at an index.
pub fn statement_at<'a>(part: Part<'a>, at: usize) -> Part<'a>
    requires { StatementAt part.words.now at }
    ensures words { (c : Statement) → Begins part.entry.words.now at (code.statement c) → result.words.now ≡ code.statement c }
    ensures base { result.base ≡ part.entry.base + at }
{
    part.cut(at, ends::statement_end(part.words, at))
}

// The event, the then-list and the else-list of an if.
#[derive(Clone, Copy)]
pub struct Branch<'a> {
    pub event: Part<'a>,
    pub then: Part<'a>,
    pub otherwise: Part<'a>,
}

impl<'a> Branch<'a> {
    pub fn of(part: Part<'a>) -> Branch<'a>
        requires { OfKind 4 part.words.now }
        ensures { (c : Statement) → part.entry.words.now ≡ code.statement c → BranchOf part.entry.base (length part.entry.words.now) c result }
    {
        let then = ends::event_end(part.words, 1);
        let otherwise = ends::list_end(part.words, then);
        Branch {
            event: part.cut(1, then),
            then: part.cut(then, otherwise),
            otherwise: part.rest(otherwise),
        }
    }
}

// How many turns a loop unrolls, its own number or else the caller's; its event and its body.
#[derive(Clone, Copy)]
pub struct Loop<'a> {
    pub turns: usize,
    pub event: Part<'a>,
    pub body: Part<'a>,
}

impl<'a> Loop<'a> {
    pub fn of(part: Part<'a>, setting: Setting) -> Loop<'a>
        requires { LoopIs setting.n part.words.now }
        ensures { (u : Unroll) (e : Event) (b : Statements) → part.entry.words.now ≡ code.statement (While u e b) → LoopOf (setting_of setting) part.entry.base (length part.entry.words.now) u e b result }
    {
        let body = ends::event_end(part.words, 3);
        let turns = if part.words[1] == 1 {
            part.words[2] as usize
        } else {
            setting.unroll
        };
        Loop {
            turns,
            event: part.cut(3, body),
            body: part.rest(body),
        }
    }
}

// The given variables of a normalize and its body.
#[derive(Clone, Copy)]
pub struct Normalize<'a> {
    pub given: Part<'a>,
    pub body: Part<'a>,
}

impl<'a> Normalize<'a> {
    pub fn of(part: Part<'a>) -> Normalize<'a>
        requires { OfKind 7 part.words.now }
        ensures { (c : Statement) → part.entry.words.now ≡ code.statement c → NormalizeOf part.entry.base (length part.entry.words.now) c result }
    {
        let body = part.words[1] as usize + 2;
        Normalize {
            given: part.cut(2, body),
            body: part.rest(body),
        }
    }
}
