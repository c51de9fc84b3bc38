//! Messages on standard error.

use crate::directory::Wanted;
use crate::report::error_count;
use crate::run::Watcher;
use std::io;
use std::io::{IsTerminal, Write};
use std::rt::HostRuntime;
use std::time::Instant;

/// The seconds between two lines of progress.
const SILENCE: u64 = 2;

/// Standard error. If it is a terminal, it shows the progress of a long run every two seconds.
#[derive(Drop)]
pub(crate) struct Terminal<'a> {
    rt: &'a HostRuntime,
    /// When progress was last shown. None: it is never shown.
    last_progress: Option<Instant>,
    /// The number of errors in reports of checks.
    errors: usize,
    /// The number of inputs with errors.
    invalid: usize,
}

impl<'a> Terminal<'a> {
    /// Returns standard error of the process.
    pub fn new(rt: &'a HostRuntime) -> Terminal<'a> {
        let last_progress = if rt.stderr().is_terminal() {
            Instant::now(rt).ok()
        } else {
            None
        };
        Terminal {
            rt,
            last_progress,
            errors: 0,
            invalid: 0,
        }
    }

    /// Prints how many errors the reports of `all` inputs have, if there are several errors, or an
    /// error and several inputs.
    pub fn end(&self, all: usize) {
        let (errors, invalid) = (self.errors, self.invalid);
        let _ = match (errors, all) {
            (0, _) | (1, 1) => Ok(()),
            (_, 1) => eprintln!(self.rt; "{errors} errors in 1 file"),
            (1, _) => eprintln!(self.rt; "1 error in 1 of {all} files"),
            _ => eprintln!(self.rt; "{errors} errors in {invalid} of {all} files"),
        };
    }
}

impl Watcher for Terminal<'_> {
    fn unread(&self, name: &str, error: &io::Error) {
        let _ = match error.kind() {
            io::ErrorKind::OutOfMemory => eprintln!(self.rt; "{name}: error: memory ran out"),
            io::ErrorKind::IsADirectory => {
                eprintln!(self.rt; "{name}: error: this is a directory, not a file")
            }
            _ => eprintln!(self.rt; "{name}: error: {error}"),
        };
    }

    fn nothing_in(&self, directory: &str, wanted: Wanted) {
        let files = match wanted {
            Wanted::Wat => "*.wat",
            Wanted::WatAndWast => "*.wat and no *.wast",
        };
        let _ = eprintln!(self.rt; "{directory}: warning: this directory has no {files}");
    }

    fn refused(&self, report: &[u8]) {
        let _ = self.rt.stderr().write_all(report);
    }

    fn checked(&mut self, name: &str, report: &[u8]) {
        let errors = error_count(name, report);
        self.errors = self.errors.saturating_add(errors);
        if errors > 0 {
            self.invalid = self.invalid.saturating_add(1);
        }
    }

    fn done(&mut self, count: usize, all: usize) {
        let Some(last) = self.last_progress else {
            return;
        };
        let Ok(now) = Instant::now(self.rt) else {
            return;
        };
        if now.duration_since(last).as_secs() >= SILENCE {
            let _ = eprintln!(self.rt; "wat: {count} of {all} inputs are done");
            self.last_progress = Some(now);
        }
    }
}
