//! A whole script: any bytes are taken, and every line after an accepted head is answered.
//! The part is an image in bytes that the caller lends, so that no memory is needed and no error is left.
ghost use Rattle.script.specs.Printing.{Replied, RepliesWritten};
ghost use Rattle.script.specs.Script.{Runs, lent};

use crate::output::Output;
use crate::printer::Printer;
use crate::reply::Reply;
use crate::start::start;
use images::flash::MAX_IMAGE;
use std::io;

/// Runs a script: each line is answered, and its reply printed, before the next one is read. The part of the head's store
/// lies at the beginning of the lent bytes; it answers how many of them are the image that the last call left, and the
/// bytes after the image stay as they were. Where the script is too long, or its head is missing or refused, it answers
/// none: one refusal is printed, and no byte is altered.
pub fn run_script<O: Output>(
    script: &[u8],
    image: &mut [u8; MAX_IMAGE],
    out: &mut O,
) -> Option<usize>
    ensures { Replied O.Output out.old out.new
        (λ replies. Runs script.now replies (lent image.old image.new result)) }
{
    match start(script, image, out) {
        Ok(size) => Some(size),
        Err(fault) => {
            Reply::Refused { fault }.print(out);
            None
        }
    }
}

/// What is left of a script whose replies went to a writer.
#[derive(Drop)]
pub struct Outcome<W> {
    /// The writer.
    pub writer: W,
    /// How many of the lent bytes are the image, if there is one.
    pub size: Option<usize>,
    /// Whether all that was printed is written, or the first fault: that of a write, which is tried again where it says
    /// that it was interrupted; `WriteZero` where one takes no byte; `TimedOut` after 2^64 - 1 writes of one block; or that
    /// of the flush at the end.
    pub written: io::Result<()>,
}

/// Runs a script as `run_script` does, and writes what it prints. Where the writer fails, the script is run to its end all
/// the same; the writer then got a beginning of what was printed.
pub fn print_script<W: io::Write>(
    script: &[u8],
    image: &mut [u8; MAX_IMAGE],
    writer: W,
) -> Outcome<W>
    ensures { RepliesWritten (W.contents writer) (W.contents result.writer) result.written
        (λ replies. Runs script.now replies (lent image.old image.new result.size)) }
{
    let mut printer = Printer::new(writer);
    let size = run_script(script, image, &mut printer);
    let (writer, written) = printer.finish();
    Outcome {
        writer,
        size,
        written,
    }
}
