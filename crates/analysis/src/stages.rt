// What the stages of a loop give besides the state that they leave.
ghost use Rattle.std.specs.Prelude.{◌≡◌};
ghost use Rattle.analysis.specs.Loops as loops;

use states::State;

// The index of the first pass whose new state equals the old, if one does, and the exits of all passes joined. The state left is that from which the last pass set out.
#[derive(Clone, Copy)]
pub struct Sought {
    pub found: Option<usize>,
    pub exits: State,
}

// Whether a stage settled, and after how many passes.
#[derive(Clone, Copy)]
pub struct Settling {
    pub settled: bool,
    pub passes: usize,
}

// How many passes joining and widening took.
#[derive(Clone, Copy)]
pub struct Settled {
    pub joined: usize,
    pub widened: usize,
}

// How a state grows by what a pass gives: a joining stage joins, a widening stage widens. No closure: `growing` is in a cycle of functions, which may not differ in type parameters.
#[derive(Clone, Copy)]
pub enum Growth {
    Join,
    Widen,
}

impl Growth {
    pub fn grow(self, old: State, new: &State, n: usize) -> State
        ensures { result ≡ loops.grow self n old new.now }
    {
        match self {
            Growth::Join => old.join(new, n),
            Growth::Widen => old.widen(new, n),
        }
    }
}
