//! The answers of the command, as values, and as they are printed.

ghost use Rattle.std.specs.Prelude.{◌↔◌, IsTrue, OnOk};
ghost use Rattle.std.specs.Io.KnownBytes.{Appends};
ghost use Rattle.pt_report.specs.Replies.{IsNo, reply_text, answer_line, place_line, verdict_line};
ghost use Rattle.pt_report.specs.Replies.{reply_sentence, sentence_line};

use crate::blocks::print_blocks;
use crate::finding::print_finding;
use crate::layout::print_layout;
use crate::why::print_no;
use pt_check::Answer;
use pt_edit::FreeBlock;
use pt_layout::{Layout, Verdict};
use pt_sector::Lba;
use std::io;
use std::io::Write;

/// What the command answers on standard output.
#[derive(Drop)]
pub enum Reply {
    /// A help text, or a plan's.
    Text(String),
    Layout(Layout),
    Verdict(Verdict),
    /// Where on the disk a partition's sector is, if it is anywhere.
    Place(Option<Lba>),
    /// The blocks of sectors where a new partition may lie.
    Free(Vec<FreeBlock>),
    Checked(Answer),
    /// What was to be written is written.
    Done,
}

impl Reply {
    /// Whether it is a no, which has an exit status of its own.
    pub fn is_no(&self) -> bool
        ensures { IsTrue result ↔ IsNo self.now }
    {
        match self {
            Reply::Verdict(Verdict::No(_)) | Reply::Place(None) | Reply::Checked(Answer::No(_)) =>
                true,
            Reply::Free(blocks) => blocks.is_empty(),
            _ => false,
        }
    }

    /// Prints it: after an Ok a writer that knows its bytes has these behind those that it had. `B` is the size of the image's
    /// sectors.
    pub fn print<const B: usize, O: Write>(&self, out: &mut O) -> io::Result<()>
        ensures { OnOk result (Appends (O.contents out.old) (O.contents out.new) (reply_text B self.now)) }
    {
        match self {
            Reply::Text(text) => out.write_all(text.as_bytes()),
            Reply::Layout(layout) => print_layout::<B, O>(out, layout),
            Reply::Verdict(verdict) => print_verdict(out, verdict),
            Reply::Place(place) => print_place(out, *place),
            Reply::Free(blocks) => print_blocks(out, blocks.as_slice()),
            Reply::Checked(answer) => print_answer(out, *answer),
            Reply::Done => out.write_all(b"done\n"),
        }
    }
}

impl Reply {
    /// Prints the sentence of a no that gives a reason, on a line: after an Ok a writer that knows its bytes has it behind those that it
    /// had.
    pub fn explain<E: Write>(&self, err: &mut E) -> io::Result<()>
        ensures { OnOk result (Appends (E.contents err.old) (E.contents err.new) (sentence_line (reply_sentence self.now))) }
    {
        match self {
            Reply::Verdict(Verdict::No(finding)) => writeln!(err, "{finding}"),
            Reply::Checked(Answer::No(why)) => writeln!(err, "{why}"),
            _ => Ok(()),
        }
    }
}

fn print_verdict<O: Write>(out: &mut O, verdict: &Verdict) -> io::Result<()>
    ensures { OnOk result (Appends (O.contents out.old) (O.contents out.new) (verdict_line verdict.now)) }
{
    match verdict {
        Verdict::Yes(_) => out.write_all(b"yes\n"),
        Verdict::No(finding) => print_finding(out, finding),
    }
}

fn print_place<O: Write>(out: &mut O, place: Option<Lba>) -> io::Result<()>
    ensures { OnOk result (Appends (O.contents out.old) (O.contents out.new) (place_line place)) }
{
    match place {
        Some(at) => writeln!(out, "{}", at.0),
        None => out.write_all(b"none\n"),
    }
}

fn print_answer<O: Write>(out: &mut O, answer: Answer) -> io::Result<()>
    ensures { OnOk result (Appends (O.contents out.old) (O.contents out.new) (answer_line answer)) }
{
    match answer {
        Answer::Yes { switch } => writeln!(out, "yes {switch}"),
        Answer::No(why) => print_no(out, why),
    }
}
