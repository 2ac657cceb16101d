//! A file whose bytes are counted as they are read.

ghost use Rattle.p21_report.specs.Watched.{source_of};

use crate::progress::{Progress, Stage};
use p21_run::{IoFault, Source};
use std::io::Write;
use std::time::Clock;

/// A source, and the progress that is told how many bytes it gave.
#[derive(Drop)]
pub struct Watched<'p, S, C, P> {
    source: S,
    bytes: u64,
    progress: &'p Progress<C, P>,
}

impl<'p, S, C, P> Watched<'p, S, C, P> {
    /// The source, which gave nothing yet.
    ///
    /// No clause says which source it watches.
    pub fn new(source: S, progress: &'p Progress<C, P>) -> Watched<'p, S, C, P> {
        Watched {
            source,
            bytes: 0,
            progress,
        }
    }

    /// The source.
    pub fn source(&self) -> &S {
        &self.source
    }
}

impl<S: Source, C: Clock, P: Write> Source for Watched<'_, S, C, P> {
    ghost use Rattle.p21_report.specs.Watched.{source_of};

    ghost marked = { λ w. S.marked (source_of w) };

    ghost failed = { λ w. S.failed (source_of w) };

    ghost remaining = { λ w. S.remaining (source_of w) };

    fn read(&mut self, into: &mut [u8]) -> Result<usize, IoFault> {
        let result = self.source.read(into);
        if let Ok(count) = result {
            self.bytes = self.bytes.saturating_add(count as u64);
            self.progress.tell(Stage::File { bytes: self.bytes });
        }
        result
    }
}
