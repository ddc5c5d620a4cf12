// Prints an answer as one line. It is put into a draft first, so that a buffer too short for it is left as it was.
ghost use Rattle.std.specs.Prelude.{◌≡◌, ℕ, ◌+◌, ◌*◌, ◌≤◌, ◌<◌, List, [], ◌++◌, length, take};
ghost use Rattle.states.specs.Answers.{answer_of};
ghost use Rattle.text.specs.Answers as answers;
ghost use Rattle.text.specs.Draft.{Put};
ghost use Rattle.text.specs.Line as lines;

use ranges::Range;
use states::{Cell, Refusal, State};
use std::marker::Model;

// Puts bytes into a buffer from `at` on, and answers the place after them; its callers keep the room.
pub fn put_bytes(buffer: &mut [u8], at: usize, bytes: &[u8]) -> usize
    requires { at + length bytes.now ≤ length buffer.old }
    ensures { Put buffer.old at bytes.now result buffer.new }
{
    let end = at + bytes.len();
    buffer[at..end].copy_from_slice(bytes);
    end
}

// What is put together of a line: the first `length` bytes. To a contract it is the list of these. Every line has room in it.
#[derive(Drop)]
struct Draft {
    bytes: [u8; 2048],
    length: usize,
}

impl Model for Draft {
    ghost Value = { List ℕ };

    ghost view = { λ d. take d.length d.bytes };

    ghost invariant = { λ d. d.length ≤ 2048 };
}

impl Draft {
    fn new() -> Draft
        ensures { result ≡ [] }
    {
        Draft {
            bytes: [0; 2048],
            length: 0,
        }
    }

    fn as_bytes(&self) -> &[u8]
        ensures { result.now ≡ self.now }
    {
        &self.bytes[..self.length]
    }

    // Callers of this and of what follows keep the room.
    fn push_bytes(&mut self, bytes: &[u8])
        requires { length self.old + length bytes.now ≤ 2048 }
        ensures { self.new ≡ self.old ++ bytes.now }
    {
        self.length = put_bytes(&mut self.bytes, self.length, bytes);
    }

    // A number in decimal: the digits of all but its last one, then that one.
    #[tactic(auto, using(crate::proofs::Digits::digits_longer))]
    fn push_number(&mut self, x: u64)
        requires { length self.old + length (lines.digits x) ≤ 2048 }
        ensures { self.new ≡ self.old ++ lines.digits x }
    {
        if 10 <= x {
            self.push_number(x / 10);
        }
        self.push_bytes(&[b'0' + (x % 10) as u8]);
    }

    // A range: at most 29 bytes.
    #[tactic(auto, using(crate::proofs::Drafts::room), unfolding(crate::specs::Line::range, crate::specs::Line::to_end))]
    fn push_range(&mut self, range: Range)
        requires { length self.old + 29 ≤ 2048 }
        ensures pushed { self.new ≡ self.old ++ lines.range range }
        ensures short { length (lines.range range) ≤ 29 }
    {
        match range {
            Range::Empty => self.push_bytes("∅".as_bytes()),
            Range::Span(start, end) => {
                self.push_bytes(b"{");
                self.push_number(u64::from(start));
                match end {
                    None => self.push_bytes(b", ...}"),
                    Some(end) if end == start => self.push_bytes(b"}"),
                    Some(end) => {
                        self.push_bytes(b", ..., ");
                        self.push_number(u64::from(end));
                        self.push_bytes(b"}");
                    }
                }
            }
        }
    }

    // The ranges of the first n cells, or of all where n is more.
    #[tactic(auto, using(crate::proofs::Drafts::ranges_all))]
    fn push_ranges(&mut self, cells: &[Cell], n: usize)
        requires { length self.old + 31 * length cells.now ≤ 2048 }
        ensures pushed { self.new ≡ self.old ++ lines.ranges n cells.now }
        ensures short { length (lines.ranges n cells.now) ≤ 31 * length cells.now }
    {
        let shown = &cells[..n.min(cells.len())];
        for (i, cell) in shown.iter().enumerate() {
            if i > 0 {
                self.push_bytes(b", ");
            }
            self.push_range(cell.range);
        }
    }

    // The ranges of the first n variables, or that the state is empty.
    fn push_state(&mut self, state: &State, n: usize)
        requires { length self.old + 1984 ≤ 2048 }
        ensures pushed { self.new ≡ self.old ++ lines.state n state.now }
        ensures short { length (lines.state n state.now) ≤ 1984 }
    {
        match state {
            State::Empty => self.push_bytes(b"empty"),
            State::Live(cells) => self.push_ranges(cells, n),
        }
    }

    #[tactic(auto, using(crate::proofs::Drafts::room))]
    fn push_refusal(&mut self, refusal: Refusal)
        requires { length self.old + 52 ≤ 2048 }
        ensures pushed { self.new ≡ self.old ++ lines.refusal refusal.number refusal.place }
        ensures short { length (lines.refusal refusal.number refusal.place) ≤ 52 }
    {
        self.push_bytes(b"refused ");
        self.push_number(refusal.number);
        self.push_bytes(b" at ");
        self.push_number(refusal.place as u64);
    }

    // The line of an answer for n variables, without its line feed.
    fn push_answer(&mut self, answer: &Result<State, Refusal>, n: usize)
        requires { length self.old + 1984 ≤ 2048 }
        ensures pushed { self.new ≡ self.old ++ lines.body n (answer_of answer.now) }
        ensures short { length (lines.body n (answer_of answer.now)) ≤ 1984 }
    {
        match answer {
            Ok(state) => self.push_state(state, n),
            Err(refusal) => self.push_refusal(*refusal),
        }
    }
}

// The line of an answer for n variables.
fn drafted(answer: &Result<State, Refusal>, n: usize) -> Draft
    ensures line { result ≡ lines.line n (answer_of answer.now) }
    ensures short { length result < 2048 }
{
    let mut draft = Draft::new();
    draft.push_answer(answer, n);
    draft.push_bytes(b"\n");
    draft
}

// How many bytes the line of an answer for n variables has.
pub fn line_length(answer: &Result<State, Refusal>, n: usize) -> usize
    ensures { result ≡ length (lines.line n (answer_of answer.now)) }
{
    drafted(answer, n).as_bytes().len()
}

// Prints the answer for n variables as one line: how many bytes, or none where the buffer is shorter, and then it is left as it was. 2,048 bytes are always enough.
pub fn line(answer: &Result<State, Refusal>, n: usize, out: &mut [u8]) -> Option<usize>
    ensures what_is_left { answers.leaves (answers.of_printed result) out.new ≡ lines.printed (lines.line n (answer_of answer.now)) out.old }
    ensures out_len_bound { result ≡ None → length out.old < 2048 }
{
    let draft = drafted(answer, n);
    let line = draft.as_bytes();
    if out.len() < line.len() {
        return None;
    }
    put_bytes(out, 0, line);
    Some(line.len())
}
