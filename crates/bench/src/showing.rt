// What was read, in words, line by line to a writer. A `Display` for each of the three would be three types more, each used once.
use messages::{Call, Message, Sitting};
use plans::Plan;
use std::io::Write;
use std::{fmt, io};

// A call's arguments by name.
#[derive(Clone, Copy)]
struct Arguments(Call);

impl fmt::Display for Arguments {
    fn fmt<W: fmt::Write>(&self, f: &mut fmt::Formatter<W>) -> fmt::Result {
        match self.0 {
            Call::Decide { operation, piece } => write!(f, " operation {operation}, piece {piece}"),
            Call::Grant {
                person,
                role,
                branch,
            }
            | Call::Take {
                person,
                role,
                branch,
            }
            | Call::Throughout {
                person,
                role,
                branch,
            } => write!(f, " person {person}, role {role}, branch {branch}"),
            Call::Enrol { person, branch } | Call::Strike { person, branch } => write!(
                f,
                " person {person}, branch {branch}"
            ),
            Call::Open { branch } | Call::Close { branch } => write!(f, " branch {branch}"),
            Call::Permit {
                operation,
                kind,
                role,
            }
            | Call::Forbid {
                operation,
                kind,
                role,
            } => write!(f, " operation {operation}, kind {kind}, role {role}"),
            Call::Sit => Ok(()),
        }
    }
}

// Prints the parts of a plan that was read.
pub(crate) fn show_plan<W: Write>(plan: &Plan, out: &mut W) -> io::Result<()> {
    writeln!(out, "plan: branches {}", plan.branch_count)?;
    writeln!(out, "plan: roles {}", plan.role_count)?;
    writeln!(out, "plan: principal role {}", plan.principal)?;
    writeln!(out, "plan: grant lines {}", plan.grant_count)?;
    writeln!(out, "plan: take lines {}", plan.take_count)?;
    writeln!(out, "plan: sets {}", plan.set_count)?;
    writeln!(out, "plan: pieces {}", plan.piece_count)?;
    writeln!(out, "plan: accepted")
}

// Prints who sits, and under which posts.
fn show_sitting<W: Write>(sitting: &Sitting, out: &mut W) -> io::Result<()> {
    write!(out, " (sitting: person {}", sitting.person)?;
    for post in &sitting.posts[..sitting.count as usize] {
        write!(out, ", role {} at branch {}", post.role, post.branch)?;
    }
    writeln!(out, ")")
}

// Prints the call's word, what it holds, and the sitting.
pub(crate) fn show_message<W: Write>(message: &Message, out: &mut W) -> io::Result<()> {
    out.write_all(message.call.word().text())?;
    let arguments = Arguments(message.call);
    write!(out, "{arguments}")?;
    show_sitting(&message.sitting, out)
}
