//! Scripts over writers that fail: how much is written, the fault that is answered, and the image, which is left all
//! the same.
use crate::wear::{wearing_script, wearing_text};
use crate::whole::{SAMPLE, SAMPLE_PRINTS};
use images::flash::MAX_IMAGE;
use script::script::print_script;
use std::alloc::Global;
use std::io;
use std::io::{ErrorKind, Write};
use std::process::Abort;
use std::test::Fail;

// A script, the text that it prints, and the image that it leaves.
#[derive(Clone, Copy)]
struct Course<'a> {
    script: &'a [u8],
    text: &'a str,
    image: &'a [u8],
}

// as in `whole` and `image_left`
const SAMPLE_COURSE: Course = Course {
    script: SAMPLE,
    text: SAMPLE_PRINTS,
    image: &[1, 0, 0, 0, 1, 0, 6, 0xeb],
};

impl Course<'_> {
    // Runs the script over a writer. It answers the writer's fault, if there is one.
    fn run<W: Write + Drop>(&self, rt: &impl Abort, writer: W) -> Option<ErrorKind> {
        let mut image = [0; MAX_IMAGE];
        let outcome = print_script(self.script, &mut image, writer);
        let left = outcome.size.and_then(|size| image.get(..size));
        assert_eq!(rt; left, Some(self.image));
        outcome.written.err().map(|fault| fault.kind())
    }

    // A slice takes what fits and then takes nothing, which is a fault where something is left to write.
    fn check_room(&self, rt: &impl Abort, heap: Global, room: usize) -> Result<(), Fail> {
        let mut places = Vec::new(heap);
        places.resize(room, 0)?;
        let fault = self.run(rt, places.as_mut_slice());
        let text = self.text.as_bytes();
        let expected = (room < text.len()).then_some(ErrorKind::WriteZero);
        assert_eq!(rt; fault, expected, "room {room}");
        let written = &text[..room.min(text.len())];
        assert!(rt; places.starts_with(written), "room {room}");
        assert!(rt;
            places.iter().skip(written.len()).all(|byte| *byte == 0),
            "room {room}"
        );
        Ok(())
    }

    // The first of the two faults is answered, and no call comes after it. Where all is written, the writer is flushed,
    // once.
    fn check_limit(&self, rt: &impl Abort, heap: Global, limit: usize) -> Result<(), Fail> {
        let mut writer = Faltering::new(heap, limit, None);
        let fault = self.run(rt, &mut writer);
        let text = self.text.as_bytes();
        let short = limit < text.len();
        assert_eq!(rt; fault, short.then_some(FIRST), "limit {limit}");
        let written = &text[..limit.min(text.len())];
        assert!(rt; writer.taken.as_slice() == written, "limit {limit}");
        assert_eq!(rt; writer.faults, usize::from(short), "limit {limit}");
        assert_eq!(rt; writer.flushes, usize::from(!short), "limit {limit}");
        assert_eq!(rt; writer.calls_after_fault, 0, "limit {limit}");
        Ok(())
    }
}

const FIRST: ErrorKind = ErrorKind::StorageFull;

const LATER: ErrorKind = ErrorKind::BrokenPipe;

// A writer that takes up to three bytes and is interrupted at every other call. Once it has taken as many bytes as its
// limit it fails at each call, first by `FIRST` and then by `LATER`.
#[derive(Drop)]
struct Faltering {
    taken: Vec<u8>,
    limit: usize,
    is_interrupted: bool,
    faults: usize,
    calls_after_fault: usize,
    flushes: usize,
    flush_fault: Option<ErrorKind>,
}

impl Faltering {
    fn new(heap: Global, limit: usize, flush_fault: Option<ErrorKind>) -> Self {
        Faltering {
            taken: Vec::new(heap),
            limit,
            is_interrupted: false,
            faults: 0,
            calls_after_fault: 0,
            flushes: 0,
            flush_fault,
        }
    }

    // Counts a call, where it comes after a fault.
    fn count(&mut self) {
        if self.faults > 0 {
            self.calls_after_fault = self.calls_after_fault.saturating_add(1);
        }
    }
}

impl Write for Faltering {
    fn write(&mut self, bytes: &[u8]) -> io::Result<usize> {
        self.count();
        self.is_interrupted = !self.is_interrupted;
        if self.is_interrupted {
            return Err(ErrorKind::Interrupted.into());
        }
        let room = self.limit.saturating_sub(self.taken.len());
        if room == 0 {
            self.faults = self.faults.saturating_add(1);
            return Err(if self.faults == 1 { FIRST } else { LATER }.into());
        }
        let taken = &bytes[..bytes.len().min(room).min(3)];
        self.taken.extend_from_slice(taken)?;
        Ok(taken.len())
    }

    fn flush(&mut self) -> io::Result<()> {
        self.count();
        self.flushes = self.flushes.saturating_add(1);
        match self.flush_fault {
            Some(fault) => Err(fault.into()),
            None => Ok(()),
        }
    }
}

#[test]
fn a_short_text_over_writers_that_fail(rt: HostRuntime) -> Result<(), Fail> {
    let heap = rt.alloc();
    for room in 0..=SAMPLE_PRINTS.len() + 1 {
        SAMPLE_COURSE.check_room(&rt, heap, room)?;
        SAMPLE_COURSE.check_limit(&rt, heap, room)?;
    }
    // a fault of the flush alone, when all is written
    let mut writer = Faltering::new(heap, 1_000, Some(LATER));
    assert_eq!(rt; SAMPLE_COURSE.run(&rt, &mut writer), Some(LATER));
    assert!(rt; writer.taken.as_slice() == SAMPLE_PRINTS.as_bytes());
    Ok(())
}

// The text has 8 + 10,000 * 4 + 15 + 4 + 18 = 40,045 bytes. It is handed on in blocks of about 4,096 bytes, of which
// nine are 36,864. The image is that of `image_left`.
#[test]
fn a_long_text_over_writers_that_fail(rt: HostRuntime) -> Result<(), Fail> {
    let heap = rt.alloc();
    let script = wearing_script(heap)?;
    let text = wearing_text(heap)?;
    assert_eq!(rt; text.len(), 40_045);
    let course = Course {
        script: &script,
        text: &text,
        image: &[1, 0, 0, 0x27, 0x10, 0, 2, 0xfe],
    };
    for room in [
        0, 4_095, 4_096, 4_097, 8_191, 8_192, 8_193, 36_864, 40_044, 40_045, 40_046,
    ] {
        course.check_room(&rt, heap, room)?;
        course.check_limit(&rt, heap, room)?;
    }
    Ok(())
}
