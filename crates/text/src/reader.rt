// Reads a text, a JSON array of unsigned integers, into words.
ghost use Rattle.std.specs.Prelude.{◌≡◌, set};
ghost use Rattle.states.specs.Answers.{answer_of};
ghost use Rattle.text.specs.Answers as answers;
ghost use Rattle.text.specs.Machine as machine;
ghost use Rattle.text.specs.Says.{Says};

use states::{Fault, Refusal};

// Where the reader stands: before `[`, after it, in a number with its value so far, after a number, after a comma, after `]`.
#[derive(Clone, Copy, PartialEq, Eq)]
pub enum Mode {
    Start,
    Opened,
    Digits(u64),
    Ended,
    Parted,
    Closed,
}

// What a byte does: it cannot stand there; it leads to a mode; or it ends a number and leads to a mode. No Option of a pair with an Option: it would name none of the three.
#[derive(Clone, Copy)]
pub enum Move {
    Stop,
    To(Mode),
    Push(u64, Mode),
}

// In a number whose value so far is `value`: one digit more, if that is below 2^64.
fn more(value: u64, digit: u64) -> Move
    ensures { result ≡ machine.more value digit }
{
    let Some(tens) = value.checked_mul(10) else {
        return Move::Stop;
    };
    let Some(next) = tens.checked_add(digit) else {
        return Move::Stop;
    };
    Move::To(Mode::Digits(next))
}

// What a byte does in a number whose value so far is `value`. The digits are told first: most of its bytes are digits.
fn in_digits(value: u64, byte: u8) -> Move
    ensures { result ≡ machine.in_digits value (machine.class_of byte) byte }
{
    if byte.is_ascii_digit() {
        return more(value, u64::from(byte - b'0'));
    }
    match byte {
        b',' => Move::Push(value, Mode::Parted),
        b']' => Move::Push(value, Mode::Closed),
        b' ' | b'\t' | b'\n' | b'\r' => Move::Push(value, Mode::Ended),
        _ => Move::Stop,
    }
}

// A blank ends a number, and is passed over elsewhere. Mode by mode: to hand on the mode as it came would copy a number's value at every byte.
fn blank(mode: Mode) -> Move
    ensures { result ≡ machine.step mode machine.Blank 0x20 }
{
    match mode {
        Mode::Start => Move::To(Mode::Start),
        Mode::Opened => Move::To(Mode::Opened),
        Mode::Digits(value) => Move::Push(value, Mode::Ended),
        Mode::Ended => Move::To(Mode::Ended),
        Mode::Parted => Move::To(Mode::Parted),
        Mode::Closed => Move::To(Mode::Closed),
    }
}

// What a byte does in a mode. Numbers and then blanks, which long texts are made of, are told first: a jump by the mode for each byte costs a fifth.
fn step(mode: Mode, byte: u8) -> Move
    ensures { result ≡ machine.step mode (machine.class_of byte) byte }
{
    if let Mode::Digits(value) = mode {
        return in_digits(value, byte);
    }
    if matches!(byte, b' ' | b'\t' | b'\n' | b'\r') {
        return blank(mode);
    }
    match (mode, byte) {
        (Mode::Opened | Mode::Parted, b'0') => Move::Push(0, Mode::Ended),
        (Mode::Opened | Mode::Parted, b'1'..=b'9') => {
            Move::To(Mode::Digits(u64::from(byte - b'0')))
        }
        (Mode::Ended, b',') => Move::To(Mode::Parted),
        (Mode::Start, b'[') => Move::To(Mode::Opened),
        (Mode::Opened | Mode::Ended, b']') => Move::To(Mode::Closed),
        _ => Move::Stop,
    }
}

// Puts a word where the words have such a place.
fn store(words: &mut [u64], at: usize, word: u64)
    ensures { words.new ≡ set words.old at word }
{
    if at < words.len() {
        words[at] = word;
    }
}

// A pass over the text: whether it is one, and how many numbers it holds. What it meets of them goes into the words, as far as those reach.
pub fn pass(text: &[u8], words: &mut [u64]) -> Result<usize, Refusal>
    ensures value { result ≡ machine.found (machine.contents text.now Mode.Start) }
    ensures words_after { words.new ≡ machine.stored 0 (machine.numbers text.now Mode.Start) words.old }
{
    let mut mode = Mode::Start;
    let mut count = 0;
    for (i, &byte) in text.iter().enumerate() {
        match step(mode, byte) {
            Move::Stop => return Err(Fault::Text.at(i)),
            Move::To(next) => mode = next,
            Move::Push(word, next) => {
                store(words, count, word);
                count += 1;
                mode = next;
            }
        }
    }
    if mode == Mode::Closed {
        return Ok(count);
    }
    Err(Fault::Text.at(text.len()))
}

// Reads the text into the words: how many, or a refusal, which leaves the words as they were. So a first pass only finds what the text holds.
#[tactic(auto, using(crate::proofs::Agree::says_left, crate::proofs::Passes::left_many))]
pub fn read(text: &[u8], words: &mut [u64]) -> Result<usize, Refusal>
    ensures says { Says text.now words.old (answers.leaves (answer_of result) words.new) }
    ensures what_is_left { answers.leaves (answer_of result) words.new ≡ machine.outcome text.now words.old }
{
    if 65536 < text.len() {
        return Err(Fault::TooLong.at(0));
    }
    let count = pass(text, &mut [0; 1])?;
    if 8192 < count || words.len() < count {
        return Err(Fault::TooLong.at(0));
    }
    pass(text, words)
}
