//! How far a run is, on a line that is rewritten and removed at the end.

use p21_crew::Gate;
use std::io::{self, Write};
use std::sync::Mutex;
use std::sync::atomic::{AtomicU64, Ordering};
use std::time::{Clock, Duration, Instant};

/// The least time between two lines, in milliseconds.
const PAUSE: u128 = 100;

/// A worker looks at the clock where so many pieces were begun since one did.
const EVERY: u64 = 256;

/// Of each so many bytes of a file the first few are looked at, to tell about how many pieces it has.
const STRIDE: usize = 16384;

const SAMPLE: usize = 256;

const MEGABYTE: u64 = 1_000_000;

/// What covers the part of a line after the program's name: it is as long as the longest.
const BLANK: &[u8] = b"                                  ";

/// Whose progress it is.
#[derive(Clone, Copy, Debug)]
pub enum Program {
    Check,
    Export,
}

impl Program {
    /// The name of the program.
    pub fn name(self) -> &'static str {
        match self {
            Program::Check => "p21check",
            Program::Export => "p21export",
        }
    }
}

/// What a run is at.
#[derive(Clone, Copy)]
pub enum Stage {
    /// The schema is read.
    Schema,
    /// The file is read: so many of its bytes are there.
    File { bytes: u64 },
    /// The instances are read: about so many hundredths of the bytes.
    Instances { share: u64, bytes: u64 },
    /// The references are followed.
    References,
    /// The report is made.
    Report,
}

/// How far a run is. The workers share it by reference, as the gate that they pass.
#[derive(Drop)]
pub struct Progress<C, P> {
    clock: C,
    is_shown: bool,
    /// How many bytes the file has, and about how many pieces.
    bytes: AtomicU64,
    pieces: AtomicU64,
    /// From the piece of which number on a worker looks at the clock next.
    next: AtomicU64,
    line: Mutex<Line<P>>,
}

/// The line.
#[derive(Drop)]
struct Line<P> {
    out: P,
    program: Program,
    /// When it was last written.
    last: Option<Instant>,
    is_there: bool,
}

impl<C: Clock, P: Write> Progress<C, P> {
    /// The progress of a run of a program that did not begin.
    pub fn new(clock: C, out: P, program: Program, is_shown: bool) -> Progress<C, P> {
        Progress {
            clock,
            is_shown,
            bytes: AtomicU64::new(0),
            pieces: AtomicU64::new(0),
            next: AtomicU64::new(0),
            line: Mutex::new(Line {
                out,
                program,
                last: None,
                is_there: false,
            }),
        }
    }

    /// Tells what the run is at, where this is shown, and nobody told it a moment ago.
    pub fn tell(&self, stage: Stage) {
        self.write(stage, false);
    }

    /// Tells what the run is at, where this is shown, however long ago it was told.
    fn tell_at_once(&self, stage: Stage) {
        self.write(stage, true);
    }

    /// Tells what the run is at, where this is shown and nobody else tells it, at once or where the line is due.
    fn write(&self, stage: Stage, at_once: bool) {
        if !self.is_shown {
            return;
        }
        let Some(mut line) = self.line.try_lock() else {
            return;
        };
        let Ok(now) = Instant::now(&self.clock) else {
            return;
        };
        if at_once || line.is_due(now) {
            line.last = Some(now);
            line.rewrite(stage);
        }
    }

    /// Notes the bytes of the file, whose instances are read next.
    pub fn begin(&self, file: &[u8]) {
        if self.is_shown {
            self.bytes.store(file.len() as u64, Ordering::SeqCst);
            self.pieces.store(pieces_in(file), Ordering::SeqCst);
            self.next.store(0, Ordering::SeqCst);
        }
    }

    /// Tells that the piece of a number is read.
    fn tell_piece(&self, number: u64) {
        let pieces = self.pieces.load(Ordering::SeqCst).max(1);
        self.tell(Stage::Instances {
            share: (number.saturating_mul(100) / pieces).min(99),
            bytes: self.bytes.load(Ordering::SeqCst),
        });
    }

    /// Removes the line.
    pub fn remove(&self) {
        if let Some(mut line) = self.line.try_lock() {
            line.remove();
        }
    }
}

impl<C: Clock, P: Write> Gate for Progress<C, P> {
    fn enter(&self, _lane: u32, number: u64) {
        if self.is_shown && number >= self.next.load(Ordering::SeqCst) {
            self.next
                .store(number.saturating_add(EVERY), Ordering::SeqCst);
            self.tell_piece(number);
        }
    }

    fn close(&self) {
        self.tell_at_once(Stage::References);
    }
}

impl<P: Write> Line<P> {
    /// Whether the line was written long enough ago.
    fn is_due(&self, now: Instant) -> bool {
        match self.last {
            Some(last) => now.duration_since(last).as_millis() >= PAUSE,
            None => true,
        }
    }

    /// Covers the line with another. Where it cannot be written, nothing is told.
    fn rewrite(&mut self, stage: Stage) {
        self.remove();
        self.is_there = self.write(stage).is_ok();
    }

    fn write(&mut self, stage: Stage) -> io::Result<()> {
        let program = self.program.name();
        match stage {
            Stage::Schema => write!(self.out, "{program}: schema"),
            Stage::File { bytes } => write!(self.out, "{program}: file, {} MB", bytes / MEGABYTE),
            Stage::Instances { share, bytes } => write!(
                self.out,
                "{program}: instances, about {share} % of {} MB",
                bytes / MEGABYTE,
            ),
            Stage::References => write!(self.out, "{program}: references"),
            Stage::Report => write!(self.out, "{program}: report"),
        }
    }

    /// Covers the line with blanks, where it is there.
    fn remove(&mut self) {
        if self.is_there {
            let _ = self.cover();
            self.is_there = false;
        }
    }
}

impl<P: Write> Line<P> {
    /// Covers the line with blanks.
    fn cover(&mut self) -> io::Result<()> {
        self.out.write_all(b"\r")?;
        for _ in self.program.name().as_bytes() {
            self.out.write_all(b" ")?;
        }
        self.out.write_all(BLANK)?;
        self.out.write_all(b"\r")
    }
}

/// About how many pieces a file has: each ends with a semicolon.
fn pieces_in(file: &[u8]) -> u64 {
    let mut seen: u64 = 0;
    let mut found: u64 = 0;
    for part in file.chunks(STRIDE) {
        let sample = &part[..part.len().min(SAMPLE)];
        seen = seen.saturating_add(sample.len() as u64);
        found = found.saturating_add(semicolons_in(sample));
    }
    found.saturating_mul(file.len() as u64) / seen.max(1)
}

/// How many semicolons some bytes have.
fn semicolons_in(bytes: &[u8]) -> u64 {
    bytes.iter().filter(|byte| **byte == b';').count() as u64
}

/// A clock that tells no time: nothing is shown by it.
#[derive(Clone, Copy, Debug)]
pub(crate) struct NoClock;

impl Clock for NoClock {
    fn monotonic(&self) -> io::Result<Duration> {
        Err(io::Error::from(io::ErrorKind::Unsupported))
    }

    fn since_1970(&self) -> io::Result<Duration> {
        Err(io::Error::from(io::ErrorKind::Unsupported))
    }
}
