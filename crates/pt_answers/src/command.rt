//! A run of the command: a line of words, what it opens, an output stream, and an answer.

ghost use Rattle.std.specs.Prelude.{◌≡◌, [], option_map, Ok, OnOk, IfOk, IfErr};
ghost use Rattle.std.specs.Io.Buffered.{writer_buffer, writer_contents};
ghost use Rattle.std.specs.Io.KnownBytes.{Appends};
ghost use Rattle.clap.specs.Walk.{texts as slice_texts};
ghost use Rattle.pt_sector.specs.Sectors.{IsSectorSize};
ghost use Rattle.pt_report.specs.Replies.{reply_text};
ghost use Rattle.pt_report.specs.Statuses.{reply_status};
ghost use Rattle.pt_answers.specs.Runs.{Prints, RunsLine, RunsWords, Sizes, image_of, size_of_device};
ghost use Rattle.pt_answers.specs.Statuses.{IsOfOutput};

use crate::failure::Failure;
use crate::images::{Images, Opening};
use crate::jobs::reply_to;
use pt_disks::NoDevice;
use pt_line::{Job, Line, Medium, SectorSize, read_line};
use pt_report::{Reply, Status};
use std::alloc::Global;
use std::io::{BufWriter, Write};

/// The image of a job.
fn image_in(job: &Job) -> Option<&str>
    ensures { option_map (λ text. text.now) result ≡ image_of job.now }
{
    match job {
        Job::Help(_) | Job::Types => None,
        Job::Show { image, .. }
        | Job::Verify { image }
        | Job::Locate { image, .. }
        | Job::Free { image, .. }
        | Job::Edit { image, .. }
        | Job::Plan { image, .. }
        | Job::Check { image, .. }
        | Job::Apply { image, .. }
        | Job::Repair { image, .. }
        | Job::Adopt { image, .. }
        | Job::Set { image, .. } => Some(image.as_str()),
    }
}

// That of a device. Another size than the two, and one that isn't known, are refused where the device is opened.
fn size_found(found: Result<u64, NoDevice>) -> Result<SectorSize, Failure>
    ensures { result ≡ size_of_device found }
{
    match found {
        Ok(4096) => Ok(SectorSize::Bytes4096),
        Err(NoDevice::Memory) => Err(Failure::Memory),
        _ => Ok(SectorSize::Bytes512),
    }
}

/// How many bytes the sectors of an image have: what the line says, else what its device does, else 512.
fn size_of<const B: usize, I: Images<B>>(
    images: &mut I,
    said: Option<SectorSize>,
    medium: Medium,
    image: Option<&str>,
) -> Result<SectorSize, Failure>
    ensures { Sizes said medium (option_map (λ text. text.now) image.entry) (I.past images.old) (I.past images.new) result }
{
    match (said, medium, image) {
        (Some(size), _, _) => Ok(size),
        (None, Medium::Device, Some(path)) => size_found(images.device_sector_size(path)),
        _ => Ok(SectorSize::Bytes512),
    }
}

/// Prints an answer on an image with sectors of `B` bytes, and gives its status. Where the stream failed, what was done stands.
pub fn printed<const B: usize, O: Write>(reply: &Reply, out: &mut O) -> Result<Status, Failure>
    ensures text { OnOk result (Appends (O.contents out.old) (O.contents out.new) (reply_text B reply.now)) }
    ensures status { IfOk result (λ status. status ≡ reply_status reply.now) }
    ensures failed { IfErr result IsOfOutput }
{
    match reply.print::<B, O>(out) {
        Ok(()) => Ok(Status::of_reply(reply)),
        Err(error) => Err(Failure::of_output(&error)),
    }
}

// Prints an answer on an image with sectors of `B` bytes, to its end, and gives it: after Ok nothing waits in the buffer. Where the stream
// fails, what was done stands.
fn printed_whole<const B: usize, W: Write + Drop>(
    reply: Reply,
    out: &mut BufWriter<W>,
) -> Result<Reply, Failure>
    ensures prints { Prints B (Ok reply) (writer_contents W.contents out.old) (writer_contents W.contents out.new) result }
    ensures whole { OnOk result (writer_buffer out.new ≡ []) }
{
    printed::<B, BufWriter<W>>(&reply, out)?;
    match out.flush() {
        Ok(()) => Ok(reply),
        Err(error) => Err(Failure::of_output(&error)),
    }
}

#[tactic(auto, using(crate::proofs::Texts::kept))]
fn answer<const B: usize, I: Images<B>, W: Write + Drop>(
    alloc: Global,
    images: &mut I,
    line: Line,
    out: &mut BufWriter<W>,
) -> Result<Reply, Failure>
    requires { IsSectorSize B }
    ensures runs { RunsLine I.Disk.Disk I.File.remaining line (I.past images.old) (I.past images.new)
        (writer_contents W.contents out.old) (writer_contents W.contents out.new) result }
    ensures whole { OnOk result (writer_buffer out.new ≡ []) }
{
    let Line {
        job,
        size: _,
        medium,
        in_use,
    } = line;
    let reply = reply_to::<B, I>(alloc, images, Opening { medium, in_use }, job)?;
    printed_whole::<B, W>(reply, out)
}

/// Runs the command on the words after its name, with its answer on `out`, and gives that answer.
///
/// `small` opens images with sectors of 512 bytes, and `large` those of 4096. Where `out` fails, also at its end, that is why the command
/// ends, and what was done stands. An answer comes only where all of it was handed on to the stream behind `out`.
pub fn run<I: Images<512>, J: Images<4096, File = I::File>, W: Write + Drop>(
    alloc: Global,
    small: &mut I,
    large: &mut J,
    words: &[&str],
    out: &mut BufWriter<W>,
) -> Result<Reply, Failure>
    ensures runs { RunsWords I.Disk.Disk J.Disk.Disk I.File.remaining (slice_texts words.now) (I.past small.old) (I.past small.new)
        (J.past large.old) (J.past large.new) (writer_contents W.contents out.old) (writer_contents W.contents out.new) result }
    ensures whole { OnOk result (writer_buffer out.new ≡ []) }
{
    let line = read_line(alloc, words)?;
    let size = size_of::<512, I>(small, line.size, line.medium, image_in(&line.job))?;
    match size {
        SectorSize::Bytes512 => answer::<512, I, W>(alloc, small, line, out),
        SectorSize::Bytes4096 => answer::<4096, J, W>(alloc, large, line, out),
    }
}
