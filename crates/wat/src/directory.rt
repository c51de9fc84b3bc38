//! The inputs: the files that are named, and those below the directories that are named.

ghost use Rattle.std.specs.Prelude.{◌≡◌, IfOk, IsTrue};
ghost use Rattle.std.specs.List.Sorted.{IsSorted};
ghost use Rattle.std.specs.String.{string_cmp};
ghost use Rattle.wat.specs.Directories.{are_wanted, is_wanted};

use crate::run::Watcher;
use std::alloc::{AllocError, Global};
use std::fs::DirEntry;
use std::rt::Files;
use std::{fs, io};

/// Which files of a directory are inputs.
#[derive(Clone, Copy, Debug, PartialEq, Eq)]
pub(crate) enum Wanted {
    /// `*.wat`.
    Wat,
    /// `*.wat` and `*.wast`.
    WatAndWast,
}

/// Returns whether a path has the ending of a wanted file.
fn is_wanted(wanted: Wanted, path: &str) -> bool
    ensures { result ≡ is_wanted wanted path.now }
{
    let bytes = path.as_bytes();
    let is_wat = bytes.ends_with(b".wat".as_slice());
    match wanted {
        Wanted::Wat => is_wat,
        Wanted::WatAndWast => is_wat || bytes.ends_with(b".wast".as_slice()),
    }
}

/// A search below a directory.
#[derive(Drop)]
struct Search {
    wanted: Wanted,
    /// The directories that are still to be read.
    waiting: Vec<String>,
    /// The wanted files so far.
    found: Vec<String>,
    /// Whether each directory and each entry so far could be read.
    is_whole: bool,
    ghost wanted_alone: { IsTrue (are_wanted wanted found.items) },
}

/// Returns the error for an entry of a directory that can't be read.
fn entry_error(error: &io::Error) -> io::Error {
    if error.kind() == io::ErrorKind::InvalidFilename && error.raw_os_error().is_none() {
        let message = "a name in this directory isn't UTF-8";
        return io::Error::new(io::ErrorKind::InvalidFilename, message);
    }
    *error
}

impl Search {
    /// Takes an entry: a directory is to be read, and a wanted file is found. Any other entry is
    /// left out, also a symbolic link.
    fn take<R: Files>(&mut self, alloc: Global, entry: &DirEntry<R>) -> io::Result<()>
        ensures { self.new.wanted ≡ self.old.wanted }
    {
        let kind = entry.file_type()?;
        let path = entry.path().as_str();
        if kind.is_dir() {
            self.waiting.push(String::from_str(alloc, path)?)?;
        } else if kind.is_file() && is_wanted(self.wanted, path) {
            self.found.push(String::from_str(alloc, path)?)?;
        }
        Ok(())
    }

    /// Reports to the watcher that something can't be read.
    fn fail<T: Watcher>(&mut self, path: &str, error: &io::Error, watcher: &T)
        ensures { self.new.wanted ≡ self.old.wanted }
    {
        watcher.unread(path, error);
        self.is_whole = false;
    }

    /// Takes the entries of a directory.
    fn read<R: Files + AllocGlobal + Clone + Drop, T: Watcher>(
        &mut self,
        rt: &R,
        directory: &str,
        watcher: &T,
    )
        ensures { self.new.wanted ≡ self.old.wanted }
    {
        let entries = match fs::read_dir(rt, directory) {
            Ok(entries) => entries,
            Err(error) => return self.fail(directory, &error, watcher),
        };
        for entry in entries {
            match entry {
                Ok(entry) => {
                    if let Err(error) = self.take(rt.alloc(), &entry) {
                        self.fail(entry.path().as_str(), &error, watcher);
                    }
                }
                Err(error) => self.fail(directory, &entry_error(&error), watcher),
            }
        }
    }

    /// Takes the entries of all directories that wait, and of those that are found so.
    fn read_all<R: Files + AllocGlobal + Clone + Drop, T: Watcher>(&mut self, rt: &R, watcher: &T)
        ensures { self.new.wanted ≡ self.old.wanted }
    {
        for _ in 0..u64::MAX {
            match self.waiting.pop() {
                Some(directory) => self.read(rt, directory.as_str(), watcher),
                None => return,
            }
        }
    }
}

/// The inputs that were found.
#[derive(Drop)]
pub(crate) struct Found {
    pub names: Vec<String>,
    /// Whether each directory and each of its entries could be read.
    pub is_whole: bool,
}

/// Finds the wanted files below a directory, at any depth, in the order of their paths' bytes.
///
/// Symbolic links below it are left out. What can't be read is reported to the watcher, and so is a
/// directory without a wanted file.
fn files_below<R: Files + AllocGlobal + Clone + Drop, T: Watcher>(
    rt: &R,
    wanted: Wanted,
    directory: &str,
    watcher: &T,
) -> Result<Found, AllocError>
    ensures wanted { IfOk result (λ found. IsTrue (are_wanted wanted found.names.items)) }
    ensures sorted { IfOk result (λ found. IsSorted string_cmp found.names.items) }
{
    let alloc = rt.alloc();
    let mut waiting = Vec::new(alloc);
    waiting.push(String::from_str(alloc, directory)?)?;
    let mut search = Search {
        wanted,
        waiting,
        found: Vec::new(alloc),
        is_whole: true,
    };
    search.read_all(rt, watcher);
    let is_whole = search.is_whole;
    let mut names = search.found;
    names.sort_unstable();
    if names.is_empty() && is_whole {
        watcher.nothing_in(directory, wanted);
    }
    Ok(Found { names, is_whole })
}

/// Returns whether an input is a directory. `-` is standard input.
fn is_directory<R: Files>(rt: &R, input: &str) -> bool {
    input != "-" && rt.metadata(input).is_ok_and(|found| found.is_dir())
}

/// Finds the inputs that arguments name: for a directory the wanted files below it, for any other
/// name the name itself.
pub(crate) fn inputs_found<R: Files + AllocGlobal + Clone + Drop, T: Watcher>(
    rt: &R,
    wanted: Wanted,
    inputs: Vec<String>,
    watcher: &T,
) -> Result<Found, AllocError> {
    let mut all = Found {
        names: Vec::new(rt.alloc()),
        is_whole: true,
    };
    for input in inputs {
        if !is_directory(rt, input.as_str()) {
            all.names.push(input)?;
            continue;
        }
        let found = files_below(rt, wanted, input.as_str(), watcher)?;
        all.is_whole &= found.is_whole;
        for name in found.names {
            all.names.push(name)?;
        }
    }
    Ok(all)
}
