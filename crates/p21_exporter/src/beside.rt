//! A new file beside the place of an export, which takes that place when it is whole.

use crate::place::Place;
use std::alloc::{AllocError, Global};
use std::fs::{self, File, OpenOptions, Permissions, TryLockError};
use std::io;
use std::os::unix::fs::{MetadataExt, OpenOptionsExt, PermissionsExt, fchown};

/// How many names are tried.
const NAMES: u32 = 1_000_000;

/// How many names in a row that nothing has are after all that runs have left.
const GAP: u32 = 64;

/// How much of the name of the place stands in that of the file, in bytes: with the rest, and the name of a log, it has at most 255.
const NAME_BYTES: usize = 200;

/// A new file beside a place.
pub(crate) struct Beside<'a> {
    host: &'a HostRuntime,
    path: String,
    file: File,
}

impl<'a> Beside<'a> {
    /// A file beside the place, under a name that nothing has, nor a log beside it. What a run left that was cut off is removed; the file
    /// of a run that goes on is left alone, and so is whatever else has such a name.
    pub(crate) fn create(
        host: &'a HostRuntime,
        alloc: Global,
        place: &Place,
    ) -> io::Result<Beside<'a>> {
        let front = front_of(alloc, place.path())?;
        remove_all_left(host, alloc, front.as_str())?;
        for number in 0..NAMES {
            let path = format!(in alloc; "{front}{number}")?;
            if log_beside(host, alloc, path.as_str())?.is_some() {
                continue;
            }
            match locked(host, path.as_str(), place.first_mode()) {
                Ok(Some(file)) => return Ok(Beside { host, path, file }),
                Ok(None) => {}
                Err(error) if error.kind() == io::ErrorKind::AlreadyExists => {}
                Err(error) => return Err(error),
            }
        }
        Err(io::Error::from(io::ErrorKind::AlreadyExists))
    }

    /// Its name.
    pub(crate) fn path(&self) -> &str {
        self.path.as_str()
    }

    /// The file.
    pub(crate) fn file(&mut self) -> &mut File {
        &mut self.file
    }

    /// Lets other locks be had on it.
    pub(crate) fn unlock(&self) {
        let _ = self.file.unlock();
    }

    /// Gives it the place, when all of it is on the disk, and the access to what stood there; else it is removed.
    pub(crate) fn take_place(self, place: &Place) -> io::Result<()> {
        let Beside { host, path, file } = self;
        let moved = give_place(host, &file, path.as_str(), place);
        if moved.is_err() {
            let _ = fs::remove_file(host, path.as_str());
        }
        moved
    }

    /// Removes it.
    pub(crate) fn remove(self) {
        let Beside {
            host,
            path,
            file: _,
        } = self;
        let _ = fs::remove_file(host, path.as_str());
    }
}

/// What the name of a file beside a path begins with: its folder, and the front of its own name between a point and the program's name.
fn front_of(alloc: Global, path: &str) -> Result<String, AllocError> {
    let (folder, name) = match path.rfind('/') {
        Some(at) => path.split_at(at.saturating_add(1).min(path.len())),
        None => ("", path),
    };
    let name = front_within(name, NAME_BYTES);
    format!(in alloc; "{folder}.{name}.p21export-")
}

/// The longest front of a text that has at most so many bytes.
fn front_within(text: &str, most: usize) -> &str {
    let mut end = 0;
    for (at, char) in text.char_indices() {
        let next = at.saturating_add(char.len_utf8());
        if next > most {
            break;
        }
        end = next;
    }
    text.get(..end).unwrap_or("")
}

/// A new file at a path, where nothing stood, with a lock by which other runs know that this one goes on. Nothing where another run took it for one
/// that was left.
fn locked(host: &HostRuntime, path: &str, mode: u32) -> io::Result<Option<File>> {
    let file = OpenOptions::new()
        .read(true)
        .write(true)
        .create_new(true)
        .mode(mode)
        .open(host, path)?;
    // Where there are no locks, no other run can have one either, and none removes it.
    if matches!(file.try_lock(), Err(TryLockError::WouldBlock)) || !is_at(host, path, &file) {
        return Ok(None);
    }
    Ok(Some(file))
}

/// Removes what runs left that were cut off, whose names begin so.
fn remove_all_left(host: &HostRuntime, alloc: Global, front: &str) -> Result<(), AllocError> {
    let mut free: u32 = 0;
    for number in 0..NAMES {
        if free == GAP {
            break;
        }
        let path = format!(in alloc; "{front}{number}")?;
        match fs::symlink_metadata(host, path.as_str()) {
            Ok(found) => {
                free = 0;
                if found.is_file() {
                    remove_left(host, alloc, path.as_str())?;
                }
            }
            Err(_) => free = free.saturating_add(1),
        }
    }
    Ok(())
}

/// Removes a file that no run has locked, and its log.
fn remove_left(host: &HostRuntime, alloc: Global, path: &str) -> Result<(), AllocError> {
    let Ok(file) = OpenOptions::new().read(true).write(true).open(host, path) else {
        return Ok(());
    };
    if file.try_lock().is_ok() && is_at(host, path, &file) {
        let log = log_name(alloc, path)?;
        let _ = fs::remove_file(host, log.as_str());
        let _ = fs::remove_file(host, path);
    }
    Ok(())
}

/// Whether this file stands at a path, which is no link.
fn is_at(host: &HostRuntime, path: &str, file: &File) -> bool {
    match (fs::symlink_metadata(host, path), file.metadata()) {
        (Ok(named), Ok(found)) => named.dev() == found.dev() && named.ino() == found.ino(),
        _ => false,
    }
}

/// Gives a file the place, and the access to what stood there.
fn give_place(host: &HostRuntime, file: &File, path: &str, place: &Place) -> io::Result<()> {
    if let Some(before) = place.before() {
        // A user may set the group of a file to one of their own, and only root its owner.
        let has_group = fchown(file, None, Some(before.gid())).is_ok();
        let _ = fchown(file, Some(before.uid()), None);
        // What the group before might do is not for another group.
        let kept = if has_group { 0o777 } else { 0o707 };
        file.set_permissions(Permissions::from_mode(before.mode() & kept))?;
    }
    file.sync_all()?;
    if !is_at(host, path, file) {
        return Err(io::Error::from(io::ErrorKind::NotFound));
    }
    fs::rename(host, path, place.path())
}

/// The name of the log of a database.
pub(crate) fn log_name(alloc: Global, path: &str) -> Result<String, AllocError> {
    format!(in alloc; "{path}-wal")
}

/// The log that stands beside a database, or where one would be, if there is one: SQLite applies it to whatever database has this name.
pub(crate) fn log_beside(
    host: &HostRuntime,
    alloc: Global,
    path: &str,
) -> Result<Option<String>, AllocError> {
    for kind in ["wal", "journal"] {
        let log = format!(in alloc; "{path}-{kind}")?;
        if fs::symlink_metadata(host, log.as_str()).is_ok() {
            return Ok(Some(log));
        }
    }
    Ok(None)
}
