// The job for callers in C and Rust: a slice is a pointer and a length, and an answer is a number.
#![tactic(auto)]

ghost use Rattle.std.specs.Prelude.{◌≡◌, ◌<◌, length};
ghost use Rattle.woolquern.specs.Job as job;

// Prints the line for a text into out: how many bytes were written, or 0 where the buffer was too short, since no line has none. 2,048 bytes are always enough.
#[unsafe(no_mangle)]
pub extern "C" fn woolquern_run(text: &[u8], out: &mut [u8]) -> usize
    ensures value { result ≡ job.written (job.run text.now out.old).answer }
    ensures out_after { out.new ≡ (job.run text.now out.old).buffer }
    ensures out_len_bound { result ≡ 0 → length out.old < 2048 }
{
    woolquern::run(text, out).unwrap_or(0)
}

// The same, and for each word a byte into marks: 1 at the count of a list that is entered.
#[unsafe(no_mangle)]
pub extern "C" fn woolquern_marks(text: &[u8], marks: &mut [u8], out: &mut [u8]) -> usize
    ensures value { result ≡ job.written (job.run_marked text.now marks.old out.old).printing.answer }
    ensures marks_after { marks.new ≡ (job.run_marked text.now marks.old out.old).marks }
    ensures out_after { out.new ≡ (job.run_marked text.now marks.old out.old).printing.buffer }
    ensures out_len_bound { result ≡ 0 → length out.old < 2048 }
{
    woolquern::run_marked(text, marks, out).unwrap_or(0)
}

// The same for one loop, with the four counts of passes into counts and the settled state's line into settled.
#[unsafe(no_mangle)]
pub extern "C" fn woolquern_loop(
    text: &[u8],
    unroll: usize,
    counts: &mut [u64],
    settled: &mut [u8],
    out: &mut [u8],
) -> usize
    ensures value { result ≡ job.written (job.run_loop text.now unroll counts.old settled.old out.old).printing.answer }
    ensures counts_after { counts.new ≡ (job.run_loop text.now unroll counts.old settled.old out.old).counts }
    ensures settled_after { settled.new ≡ (job.run_loop text.now unroll counts.old settled.old out.old).settled }
    ensures out_after { out.new ≡ (job.run_loop text.now unroll counts.old settled.old out.old).printing.buffer }
    ensures out_len_bound { result ≡ 0 → length out.old < 2048 }
{
    woolquern::run_loop(text, unroll, counts, settled, out).unwrap_or(0)
}
