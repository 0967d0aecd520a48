// The session: lines in, answers out. Each answer is written at once, so nothing is held back while it waits for input.
// `step` and `finish` do the work and touch neither reader nor writer; `serve` and `run` read, write and go on.

#![tactic(auto)]

ghost use Rattle.std.specs.Prelude.{◌+◌, ◌≤◌, length, MatchOption};
ghost use Rattle.answering.specs.Kept.{reply_most, line_room, Prints};
ghost use Rattle.console.specs.Serving.{closing};
ghost use Rattle.console.specs.Standing.{mid, Stepped, Passed, Served};

use answering::answer::PRINTED;
use answering::engine::{Engine, WORK};
use lines::gather::LineSoFar;
use std::io::{Read, Write};

// One step: bytes of the chunk are taken into the line, and if it is whole then, it is answered. Gives the rest of the
// chunk behind a line, and how many bytes its answer prints.
pub fn step<'a>(
    chunk: &'a [u8],
    line: &mut LineSoFar,
    engine: &mut Engine,
    work: &mut [u32; WORK],
    out: &mut [u8],
) -> Option<(&'a [u8], usize)>
    requires room { reply_most + line_room ≤ length out.old }
    ensures { MatchOption result
        (Passed (mid line.old engine.old) chunk.now (mid line.new engine.new))
        (λ r. Stepped (mid line.old engine.old) chunk.now r.0.now r.1 (mid line.new engine.new) out.new) }
{
    let rest = line.gather(chunk)?;
    let count = engine.answer(line.bytes(), work, out);
    line.clear();
    Some((rest, count))
}

// At the end of input a last line with no line feed is a line. Gives the number of bytes to be written.
pub fn finish(
    line: &LineSoFar,
    engine: &mut Engine,
    work: &mut [u32; WORK],
    out: &mut [u8],
) -> usize
    requires room { reply_most + line_room ≤ length out.old }
    ensures { Prints (closing (mid line.now engine.old)) result out.new }
{
    if line.is_empty() {
        return 0;
    }
    engine.answer(line.bytes(), work, out)
}

// More bytes; none at the end of input, and where reading fails.
fn read<E: Eprint, R: Read>(rt: &E, input: &mut R, chunk: &mut [u8]) -> usize
    ensures { result ≤ length chunk.new }
{
    match input.read(chunk) {
        Ok(n) => n,
        Err(_) => {
            let _ = eprintln!(rt; "session: reading failed");
            0
        }
    }
}

fn write<E: Eprint, W: Write>(rt: &E, output: &mut W, bytes: &[u8]) {
    if output.write_all(bytes).is_err() {
        let _ = eprintln!(rt; "session: writing failed");
    }
}

// A whole chunk, step by step; what each prints is written.
fn serve<E: Eprint, W: Write>(
    rt: &E,
    output: &mut W,
    chunk: &[u8],
    line: &mut LineSoFar,
    engine: &mut Engine,
    work: &mut [u32; WORK],
    out: &mut [u8; PRINTED],
)
    ensures { Served (mid line.old engine.old) chunk.now (mid line.new engine.new) }
{
    let mut rest = chunk;
    while let Some((behind, count)) = step(rest, line, engine, work, out) {
        write(rt, output, &out[..count]);
        rest = behind;
    }
}

fn run<E: Eprint, R: Read, W: Write>(
    rt: &E,
    input: &mut R,
    output: &mut W,
    chunk: &mut [u8],
    work: &mut [u32; WORK],
    out: &mut [u8; PRINTED],
) {
    let mut line = LineSoFar::new();
    let mut engine = Engine::new();
    // every loop must end: this one after more reads than a machine lives to make
    for _ in 0..u64::MAX {
        let n = read(rt, input, chunk);
        if n == 0 {
            let last = finish(&line, &mut engine, work, out);
            write(rt, output, &out[..last]);
            return;
        }
        serve(rt, output, &chunk[..n], &mut line, &mut engine, work, out);
    }
}

// The session on a reader and a writer; a failure of either is told on the runtime's standard error. What a table holds
// before a NEW is not looked at.
pub fn session<E: Eprint, R: Read, W: Write>(rt: &E, input: &mut R, output: &mut W) {
    let mut chunk = [0u8; 65536];
    let mut work = [0u32; WORK];
    let mut out = [0u8; PRINTED];
    run(rt, input, output, &mut chunk, &mut work, &mut out);
}
