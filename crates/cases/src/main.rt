// Says of each case on standard input what the reader of plans or of messages says of its bytes.
//
// A case is a line with the word `plan` or `message` and the bytes in hexadecimal, in groups of any size; `00*300` stands for three
// hundred bytes 00. A line that begins with # is printed as it is.
#![tactic(auto)]

mod hexadecimal;

use anyhow::{Context, anyhow};
use hexadecimal::bytes_of;
use lines::{Word, line_of_refusal};
use plans::Plan;
use refusals::Refusal;
use std::alloc::Global;
use std::io;
use std::io::{BufRead, BufReader, BufWriter, Write};

// Prints the line of a refusal under the word, or that the bytes are accepted.
fn tell<W: Write>(word: Word, refused: Option<Refusal>, out: &mut W) -> io::Result<()> {
    match refused {
        Some(refusal) => out.write_all(&line_of_refusal(word, refusal)),
        None => out.write_all(b"accepted\n"),
    }
}

// Answers one line of the input.
fn answer<W: Write>(heap: Global, line: &str, plan: &mut Plan, out: &mut W) -> anyhow::Result<()> {
    if line.starts_with("#") {
        writeln!(out, "{line}")?;
        return Ok(());
    }
    let (word, digits) = line.split_once(' ').context("a case has a word and bytes")?;
    let bytes = bytes_of(heap, digits)?;
    match word {
        "plan" => tell(
            Word::Plan,
            plans::read(&bytes, plan).err().map(Refusal::from),
            out,
        )?,
        "message" => {
            let mut message = messages::blank();
            tell(
                Word::Unread,
                messages::read(&bytes, &mut message)
                    .err()
                    .map(Refusal::from),
                out,
            )?;
        }
        _ => return Err(anyhow!("a case is a plan or a message")),
    }
    Ok(())
}

// The whole run.
fn run(rt: &HostRuntime) -> anyhow::Result<()> {
    let heap = rt.alloc();
    let mut out = BufWriter::new(heap, rt.stdout())?;
    let mut plan = Plan::empty();
    for line in BufReader::new(heap, rt.stdin())?.lines(heap) {
        let line = line?;
        answer(heap, line.as_str(), &mut plan, &mut out)?;
    }
    out.flush()?;
    Ok(())
}

fn main(rt: HostRuntime) -> anyhow::Result<()> {
    run(&rt)
}
