// Reads a plan file and asks from standard input and prints what each ask is told, a line each, or a refusal's number and place in one line. It decides
// nothing of its own: `intake::plan_output` says what is printed.
#![tactic(auto)]

ghost use Rattle.std.specs.Prelude.{◌≤◌, length, IfOk};

use report::TEXT;
use std::io;
use std::io::{Print, Read, Stdin};

// Reads until the buffer is full or the input ends: how many bytes stand at its front. It stands in both programs, since only they may read (D109).
fn read_full(input: &mut Stdin, bytes: &mut [u8]) -> io::Result<usize>
    ensures { IfOk result (λ n. n ≤ length bytes.new) }
{
    let mut done = 0;
    while done < bytes.len() {
        let n = input.read(&mut bytes[done..])?;
        if n == 0 {
            break;
        }
        done += n;
    }
    Ok(done)
}

// Prints the text for an input.
fn answer(rt: &HostRuntime, bytes: &[u8]) -> io::Result<()> {
    let mut text = [0u8; TEXT];
    let n = intake::plan_output(bytes, &mut text);
    rt.write_all(&text[..n])
}

// One byte more than is allowed shows an input that is too long.
fn main(rt: HostRuntime) -> io::Result<()> {
    let mut bytes = [0u8; 32769];
    let n = read_full(&mut rt.stdin(), &mut bytes)?;
    answer(&rt, &bytes[..n])
}
