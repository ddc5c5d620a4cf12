// Reads the text of a program from standard input and writes its line to standard output.
#![tactic(auto)]

// One byte more than a text may have is enough to refuse a longer one.
fn main(rt: HostRuntime) {
    let mut text = [0; 65537];
    let length = input::read_full(&mut rt.stdin(), &mut text);
    let mut out = [0; 2048];
    let count = woolquern::run(&text[..length], &mut out).unwrap();
    // An output that is closed, or whose reader went away, is no failure of the program's.
    let _ = rt.write_all(&out[..count]);
}
