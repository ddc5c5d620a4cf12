// The kinds of draws, events and statements, by the word at their start. The names are genfer's.
#![tactic(auto)]

ghost use Rattle.words.specs.Kinds.{SaysDraw, SaysEvent, SaysStatement};

// Draws, in the order of genfer's `Distribution`; the last three are continuous.
#[derive(Clone, Copy, PartialEq, Eq)]
pub enum DrawKind {
    Dirac,
    Bernoulli,
    BernoulliVarProb,
    BinomialVarTrials,
    Binomial,
    Categorical,
    NegBinomialVarSuccesses,
    NegBinomial,
    Geometric,
    Poisson,
    PoissonVarRate,
    Uniform,
    Exponential,
    Gamma,
    UniformCont,
}

impl DrawKind {
    // The kind that a word says, if it says one.
    pub fn of(word: u64) -> Option<DrawKind>
        ensures { SaysDraw word result }
    {
        match word {
            1 => Some(DrawKind::Dirac),
            2 => Some(DrawKind::Bernoulli),
            3 => Some(DrawKind::BernoulliVarProb),
            4 => Some(DrawKind::BinomialVarTrials),
            5 => Some(DrawKind::Binomial),
            6 => Some(DrawKind::Categorical),
            7 => Some(DrawKind::NegBinomialVarSuccesses),
            8 => Some(DrawKind::NegBinomial),
            9 => Some(DrawKind::Geometric),
            10 => Some(DrawKind::Poisson),
            11 => Some(DrawKind::PoissonVarRate),
            12 => Some(DrawKind::Uniform),
            13 => Some(DrawKind::Exponential),
            14 => Some(DrawKind::Gamma),
            15 => Some(DrawKind::UniformCont),
            _ => None,
        }
    }
}

// Events.
#[derive(Clone, Copy, PartialEq, Eq)]
pub enum EventKind {
    InSet,
    VarComparison,
    DataFromDist,
    Complement,
    Intersection,
}

impl EventKind {
    // The kind that a word says, if it says one.
    pub fn of(word: u64) -> Option<EventKind>
        ensures { SaysEvent word result }
    {
        match word {
            1 => Some(EventKind::InSet),
            2 => Some(EventKind::VarComparison),
            3 => Some(EventKind::DataFromDist),
            4 => Some(EventKind::Complement),
            5 => Some(EventKind::Intersection),
            _ => None,
        }
    }
}

// Statements.
#[derive(Clone, Copy, PartialEq, Eq)]
pub enum StatementKind {
    Sample,
    Assign,
    Decrement,
    IfThenElse,
    While,
    Fail,
    Normalize,
}

impl StatementKind {
    // The kind that a word says, if it says one.
    pub fn of(word: u64) -> Option<StatementKind>
        ensures { SaysStatement word result }
    {
        match word {
            1 => Some(StatementKind::Sample),
            2 => Some(StatementKind::Assign),
            3 => Some(StatementKind::Decrement),
            4 => Some(StatementKind::IfThenElse),
            5 => Some(StatementKind::While),
            6 => Some(StatementKind::Fail),
            7 => Some(StatementKind::Normalize),
            _ => None,
        }
    }
}
