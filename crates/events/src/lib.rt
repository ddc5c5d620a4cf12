// Draws and events: the range of a draw, both sides of an event, the caller's setting, and parts of the words with their places.
#![tactic(auto)]

pub mod draws;
pub mod event;

ghost use Rattle.std.specs.Prelude.{◌≡◌, ◌+◌, ◌<◌, ◌≤◌, ◌^◌, length, drop, slice_range};

use states::State;

// The caller's: how many variables, and the unroll of a loop that has none of its own.
#[derive(Clone, Copy)]
pub struct Setting {
    pub n: usize,
    pub unroll: usize,
    pub ghost n_bound: { n ≤ 64 },
    pub ghost unroll_bound: { unroll ≤ 10000 },
}

// A part of the program's words, and the place in the program of the first of them.
#[derive(Clone, Copy)]
pub struct Part<'a> {
    pub words: &'a [u64],
    pub base: usize,
    pub ghost places_fit: { base + length words.now < 2 ^ 64 },
}

impl<'a> Part<'a> {
    // The program itself.
    pub fn whole(words: &'a [u64]) -> Part<'a>
        ensures words_all { result.words.now ≡ words.now }
        ensures base_zero { result.base ≡ 0 }
    {
        Part { words, base: 0 }
    }

    // The words from one index up to another.
    pub fn cut(self, from: usize, to: usize) -> Part<'a>
        requires from_bound { from ≤ to }
        requires to_bound { to ≤ length self.words.now }
        ensures words_cut { result.words.now ≡ slice_range self.entry.words.now from to }
        ensures base_moved { result.base ≡ self.entry.base + from }
    {
        Part {
            words: &self.words[from..to],
            base: self.base + from,
        }
    }

    // The words from an index on.
    pub fn rest(self, from: usize) -> Part<'a>
        requires { from ≤ length self.words.now }
        ensures words_left { result.words.now ≡ drop from self.entry.words.now }
        ensures base_moved { result.base ≡ self.entry.base + from }
    {
        self.cut(from, self.words.len())
    }
}

// The true and the false side of an event.
#[derive(Clone, Copy)]
pub struct Sides {
    pub yes: State,
    pub no: State,
}
