// Reads a plan and an evening's messages, and prints what it reads: see docs/FORMATS.md, "What bench reads and prints".
#![tactic(auto)]

ghost use Rattle.std.specs.Prelude.{◌≤◌, length, IfOk};

mod framing;
mod showing;

use framing::{ends_the_run, wanted};
use lines::{Word, line_of_refusal};
use messages::{MESSAGE, Message};
use plans::Plan;
use refusals::Refusal;
use showing::{show_message, show_plan};
use std::io::{BufReader, BufWriter, Read, Write};
use std::{fs, io};

// The bytes before a message's body.
const HEADER: usize = 3;

// Reads until the memory is full or the input has ended, and says how many bytes were read. Lent memory, and no `Vec` by
// `take(n).read_to_end(..)`: how many bytes that gives is not proved.
fn read_up_to<R: Read>(input: &mut R, memory: &mut [u8]) -> io::Result<usize>
    ensures { IfOk result (λ held. held ≤ length memory.old) }
{
    let mut held = 0;
    while held < memory.len() {
        let more = input.read(&mut memory[held..])?;
        if more == 0 {
            break;
        }
        held += more;
    }
    Ok(held)
}

// Reads the bytes of the next message, as many as there are of it.
fn next_message<'m, R: Read>(input: &mut R, memory: &'m mut [u8; MESSAGE]) -> io::Result<&'m [u8]>
    ensures { IfOk result (λ bytes. length bytes.now ≤ 17) }
{
    let header = read_up_to(input, &mut memory[..HEADER])?;
    if header < HEADER {
        return Ok(&memory[..header]);
    }
    let end = HEADER + wanted(&memory[..HEADER]);
    let body = read_up_to(input, &mut memory[HEADER..end])?;
    Ok(&memory[..HEADER + body])
}

// Shows one message, or says why it cannot be read; answers whether the run goes on.
fn take_message<W: Write>(bytes: &[u8], message: &mut Message, out: &mut W) -> io::Result<bool> {
    match messages::read(bytes, message) {
        Ok(()) => {
            show_message(message, out)?;
            Ok(true)
        }
        Err(fault) => {
            out.write_all(&line_of_refusal(Word::Unread, Refusal::from(fault)))?;
            Ok(!ends_the_run(fault))
        }
    }
}

// Goes through the messages until the input ends or one of them says no more where the next begins.
fn take_messages<R: Read, W: Write>(input: &mut R, out: &mut W) -> io::Result<()> {
    let mut memory = [0; MESSAGE];
    let mut message = messages::blank();
    // A count in place of `loop`: an input may never end, and every loop has to.
    for _ in 0..u64::MAX {
        let bytes = next_message(input, &mut memory)?;
        if bytes.is_empty() || !take_message(bytes, &mut message, out)? {
            break;
        }
    }
    Ok(())
}

// The bytes of the plan file; where it cannot be read, that is said on standard error.
fn plan_file(rt: &HostRuntime) -> io::Result<Vec<u8>> {
    match fs::read(rt, "plan.bin") {
        Ok(bytes) => Ok(bytes),
        Err(fault) => {
            eprintln!(rt; "bench: plan.bin cannot be read")?;
            Err(fault)
        }
    }
}

// The whole run.
fn run(rt: &HostRuntime) -> io::Result<()> {
    let bytes = plan_file(rt)?;
    let mut out = BufWriter::new(rt.alloc(), rt.stdout())?;
    let mut plan = Plan::empty();
    match plans::read(&bytes, &mut plan) {
        Ok(()) => {
            show_plan(&plan, &mut out)?;
            take_messages(&mut BufReader::new(rt.alloc(), rt.stdin())?, &mut out)?;
        }
        Err(fault) => out.write_all(&line_of_refusal(Word::Plan, Refusal::from(fault)))?,
    }
    out.flush()
}

fn main(rt: HostRuntime) -> io::Result<()> {
    run(&rt)
}
