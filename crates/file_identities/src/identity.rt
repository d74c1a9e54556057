//! What the file system answers of a path: which file it leads to, or which one would be made.
ghost use Rattle.std.specs.Prelude.{◌≡◌, IfOk};
ghost use Rattle.file_identities.specs.Clashes as wanted;

use crate::file_use::FileUse;
use std::alloc::{AllocError, Global};
use std::fs::Metadata;
use std::os::unix::fs::{FileTypeExt, MetadataExt};
use std::path::{Path, PathBuf};
use std::rt::Files;
use std::{fs, io};

/// What a file keeps of what is written to it.
#[derive(Clone, Copy)]
pub enum Keeping {
    /// The bytes.
    Bytes,
    /// Nothing, and there is one reader of all: a pipe or a socket.
    Pipe,
    /// Nothing: a terminal, or another character device.
    Device,
}

/// Which file a path leads to.
#[derive(Drop)]
pub struct Identity {
    /// The device of the file, or of the folder in which it would be made.
    pub device: u64,
    /// The number of the file, or of that folder, on its device.
    pub node: u64,
    /// The name of a file that would be made; nothing, if it exists.
    pub name: String,
    /// What it keeps.
    pub keeping: Keeping,
}

impl Identity {
    /// Returns true if two paths lead to one file, or to one that would be made.
    pub(crate) fn is_same(&self, other: &Identity) -> bool
        ensures { result ≡ wanted.is_same self.now other.now }
    {
        self.device == other.device
            && self.node == other.node
            && self.name.as_str() == other.name.as_str()
    }
}

/// A file of a command line, with its identity unless it loses nothing, or the file system has no
/// answer.
#[derive(Drop)]
pub struct Asked<'a> {
    /// The file.
    pub file: FileUse<'a>,
    /// Which one it is.
    pub identity: Option<Identity>,
}

/// As many links are followed, one to the next.
const MOST_LINKS: u32 = 40;

/// Returns true if a device is that of `/dev/null`, `/dev/zero` or `/dev/full`: nothing that is
/// written there is anywhere.
fn is_void(device: u64) -> bool {
    matches!(device, 0x103 | 0x105 | 0x107)
}

/// Returns what a file keeps, or `None` if nothing can be lost.
fn keeping_of(metadata: &Metadata) -> Option<Keeping> {
    let kind = metadata.file_type();
    if kind.is_char_device() {
        if is_void(metadata.rdev()) {
            None
        } else {
            Some(Keeping::Device)
        }
    } else if kind.is_fifo() || kind.is_socket() {
        Some(Keeping::Pipe)
    } else {
        Some(Keeping::Bytes)
    }
}

/// Returns the identity of an existing file.
fn identity_of(alloc: Global, metadata: &Metadata) -> Option<Identity> {
    match keeping_of(metadata) {
        Some(keeping) => Some(Identity {
            device: metadata.dev(),
            node: metadata.ino(),
            name: String::new(alloc),
            keeping,
        }),
        None => None,
    }
}

/// Returns the path that a link at this path leads to.
fn joined(alloc: Global, path: Path<'_>, target: Path<'_>) -> Result<PathBuf, AllocError> {
    path.parent().unwrap_or(Path::new("")).join(alloc, target)
}

/// Returns what a link at this path leads to, if it is one.
fn link_at<R: Files>(rt: &R, alloc: Global, path: Path<'_>) -> Result<Option<PathBuf>, AllocError> {
    match rt.read_link(alloc, path.as_str()) {
        Ok(target) => {
            let joined = joined(alloc, path, target.as_path());
            drop(target);
            Ok(Some(joined?))
        }
        Err(error) => match error.kind() {
            io::ErrorKind::OutOfMemory => Err(AllocError),
            _ => Ok(None),
        },
    }
}

/// Returns the path at which a file would be made: the end of links that lead to nothing.
fn end_of_links<R: Files>(rt: &R, alloc: Global, path: &str) -> Result<PathBuf, AllocError> {
    let mut end = PathBuf::from_str(alloc, path)?;
    for _ in 0..MOST_LINKS {
        match link_at(rt, alloc, end.as_path())? {
            Some(next) => end = next,
            None => return Ok(end),
        }
    }
    Ok(end)
}

/// Returns the identity of a file that would be made by this name in a folder.
fn identity_in_folder<R: Files>(
    rt: &R,
    alloc: Global,
    folder: &str,
    name: &str,
) -> Result<Option<Identity>, AllocError> {
    let folder = if folder.is_empty() { "." } else { folder };
    match fs::metadata(rt, folder) {
        Ok(metadata) => Ok(Some(Identity {
            device: metadata.dev(),
            node: metadata.ino(),
            name: String::from_str(alloc, name)?,
            keeping: Keeping::Bytes,
        })),
        Err(_) => Ok(None),
    }
}

/// Returns the identity of a file that would be made at this path, if that has a folder and a name
/// in it.
fn identity_made_at<R: Files>(
    rt: &R,
    alloc: Global,
    path: Path<'_>,
) -> Result<Option<Identity>, AllocError> {
    match (path.file_name(), path.parent()) {
        (Some(name), Some(folder)) => identity_in_folder(rt, alloc, folder.as_str(), name),
        _ => Ok(None),
    }
}

/// Returns the identity of a file that would be made at a path at which nothing is.
fn identity_to_be<R: Files>(
    rt: &R,
    alloc: Global,
    path: &str,
) -> Result<Option<Identity>, AllocError> {
    let end = end_of_links(rt, alloc, path)?;
    let identity = identity_made_at(rt, alloc, end.as_path());
    drop(end);
    identity
}

/// Returns the identity of the file at this path, or `None` if nothing can be lost, or the file
/// system has no answer.
fn identity_at<R: Files>(
    rt: &R,
    alloc: Global,
    path: &str,
) -> Result<Option<Identity>, AllocError> {
    match fs::metadata(rt, path) {
        Ok(metadata) => Ok(identity_of(alloc, &metadata)),
        Err(error) if error.kind() == io::ErrorKind::NotFound => identity_to_be(rt, alloc, path),
        Err(_) => Ok(None),
    }
}

/// Asks the file system which file this is.
pub(crate) fn ask<'a, R: Files>(
    rt: &R,
    alloc: Global,
    file: FileUse<'a>,
) -> Result<Asked<'a>, AllocError>
    ensures { IfOk result (λ asked. asked.file ≡ file.entry) }
{
    let identity = identity_at(rt, alloc, file.place.path())?;
    Ok(Asked { file, identity })
}
