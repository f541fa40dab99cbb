//! A writer as an output. Texts are collected, and handed on in blocks, so that a short reply is no write by itself.
//! Where a write fails, and was not only interrupted, its fault is kept for the end, and nothing is written any more.
ghost use Rattle.script.specs.Writing.{WritesBeginning};

use crate::output::Output;
use arrayvec::ArrayVec;
use std::io;

// how many bytes are collected at most
const BLOCK: usize = 4_096;

/// An output over a writer. What it has collected is written by `finish`; one that is dropped without it loses that.
#[derive(Drop)]
pub struct Printer<W> {
    writer: W,
    // taken, and not written yet
    pending: ArrayVec<u8, BLOCK>,
    // why the writer failed
    fault: Option<io::Error>,
}

impl<W: io::Write> Printer<W> {
    ghost use Rattle.script.specs.Printers.{IsNew, Collects, Finishes};

    /// A printer that has taken nothing yet.
    pub fn new(writer: W) -> Printer<W>
        ensures { IsNew writer result }
    {
        Printer {
            writer,
            pending: ArrayVec::new(),
            fault: None,
        }
    }

    /// Writes what is still collected, flushes the writer and gives it back. Where a write failed before, it answers that
    /// fault and leaves the writer as it is; else a fault of these last writes, `WriteZero` where one takes no byte and
    /// `TimedOut` after 2^64 - 1 of them, or that of the flush.
    pub fn finish(self) -> (W, io::Result<()>)
        ensures { Finishes W.contents self result.0 result.1 }
    {
        let Printer {
            mut writer,
            pending,
            fault,
        } = self;
        let written = match fault {
            Some(fault) => Err(fault),
            None => write_last(&mut writer, pending.as_slice()),
        };
        (writer, written)
    }

    // Collects a text. Where there is no room for it, all that was collected is written, and then the text.
    fn collect(&mut self, text: &[u8]) -> io::Result<()>
        ensures { Collects W.contents self.old text.now self.new result }
    {
        if self.pending.try_extend_from_slice(text).is_err() {
            write_out(&mut self.writer, self.pending.as_slice())?;
            self.pending.clear();
            write_out(&mut self.writer, text)?;
        }
        Ok(())
    }
}

impl<W: io::Write> Output for Printer<W> {
    ghost use Rattle.script.specs.Printers.{TakesText};
    ghost use Rattle.script.specs.Growing.{texts_joined};

    ghost takes = { TakesText W.contents };

    ghost joins = { texts_joined W.contents };

    fn text(&mut self, text: &[u8]) {
        if self.fault.is_none() {
            self.fault = self.collect(text).err();
        }
    }
}

// Writes the last bytes, and has the writer hand on what it has collected itself.
fn write_last<W: io::Write>(writer: &mut W, bytes: &[u8]) -> io::Result<()>
    ensures { WritesBeginning (W.contents writer.old) (W.contents writer.new) bytes.now result }
{
    write_out(writer, bytes)?;
    writer.flush()
}

// Writes all the bytes, or as many as the writer takes before it fails. The library's `write_all` does the same, but
// does not say what was written where it fails.
fn write_out<W: io::Write>(writer: &mut W, bytes: &[u8]) -> io::Result<()>
    ensures { WritesBeginning (W.contents writer.old) (W.contents writer.new) bytes.now result }
{
    let mut rest = bytes;
    for _ in 0..u64::MAX {
        if rest.is_empty() {
            return Ok(());
        }
        match writer.write(rest) {
            Ok(0) => return Err(io::ErrorKind::WriteZero.into()),
            Ok(count) => rest = &rest[count..],
            Err(fault) if fault.kind() == io::ErrorKind::Interrupted => {}
            Err(fault) => return Err(fault),
        }
    }
    Err(io::ErrorKind::TimedOut.into())
}
