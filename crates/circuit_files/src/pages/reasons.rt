//! The reason why a file can't be read or written, in the system's words. A run counts what fails,
//! and keeps no words. So what failed is tried once more, in a way that changes no file.
use std::fs;
use std::fs::{File, OpenOptions};
use std::io::{Error, ErrorKind, Read};
use std::rt::Files;

/// Returns why the existing file or folder can't be read.
fn why_unread<R: Files>(rt: &R, path: &str) -> Option<Error> {
    match File::open(rt, path) {
        Ok(file) => {
            let mut file = file;
            let mut piece = [0u8; 1];
            file.read(&mut piece).err()
        }
        Err(error) => Some(error),
    }
}

/// Returns why the existing file or folder can't be written. It isn't emptied.
fn why_unwritten<R: Files>(rt: &R, path: &str) -> Option<Error> {
    let mut options = OpenOptions::new();
    options.write(true);
    options.open(rt, path).err()
}

/// Returns why the file, which doesn't exist, can't be made. One that is made after all is taken
/// away.
fn why_unmade<R: Files>(rt: &R, path: &str) -> Option<Error> {
    match File::create_new(rt, path) {
        Ok(file) => {
            drop(file);
            let _ = fs::remove_file(rt, path);
            None
        }
        Err(error) if error.kind() == ErrorKind::AlreadyExists => None,
        Err(error) => Some(error),
    }
}

/// Returns why the file with this path can't be read, or written. Nothing is known of a standard
/// stream, whose name is no path. Nor is it of a pipe or a device, since trying again could wait.
pub(crate) fn reason<R: Files>(rt: &R, path: &str, is_written: bool) -> Option<Error> {
    if path == "stdin" || path == "stdout" {
        return None;
    }
    match fs::metadata(rt, path) {
        Ok(metadata) if !metadata.is_file() && !metadata.is_dir() => None,
        Ok(_) if is_written => why_unwritten(rt, path),
        Ok(_) => why_unread(rt, path),
        Err(error) => {
            if is_written {
                drop(error);
                why_unmade(rt, path)
            } else {
                Some(error)
            }
        }
    }
}
