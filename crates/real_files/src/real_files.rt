//! The files that a program reads. What is said of a command over any files stands, over these, on their calls doing what
//! their names say.

ghost use Rattle.std.specs.Prelude.{None, ◌≤◌, IfOk, length};

use journal_cmd::files::{FileFault, Files};
use std::fs::{File, metadata};
use std::io::{self, Error, ErrorKind};
use std::os::unix::fs::FileExt;
use std::rt;

/// The most bytes that a file of a journal may have.
const MOST: u64 = 4_294_967_295;

/// The files of the system, which are opened for reading alone, anew for each read. What is no regular file, or longer than a
/// journal's may be, isn't opened. It counts its failures, and tells no file.
#[derive(Drop)]
pub struct RealFiles<R: rt::Files<File = File> + Drop> {
    rt: R,
    faults: u64,
}

impl<R: rt::Files<File = File> + Drop> RealFiles<R> {
    pub fn new(rt: R) -> RealFiles<R> {
        RealFiles { rt, faults: 0 }
    }

    /// Opens a regular file for reading, and reads from a place on.
    fn read_at(&self, name: &str, at: u64, buf: &mut [u8]) -> io::Result<usize>
        ensures { IfOk result (λ n. n ≤ length buf.new) }
    {
        let about = metadata(&self.rt, name)?;
        if !about.is_file() || about.len() > MOST {
            return Err(Error::from(ErrorKind::InvalidInput));
        }
        let file = File::open(&self.rt, name)?;
        file.read_at(buf, at)
    }
}

impl<R: rt::Files<File = File> + Drop> Files for RealFiles<R> {
    ghost told = { λ f. None };

    ghost faults = { λ f. f.faults };

    fn read(&mut self, name: &str, at: u64, buf: &mut [u8]) -> Result<usize, FileFault> {
        match self.read_at(name, at, buf) {
            Ok(n) => Ok(n),
            Err(fault) => {
                if fault.kind() == ErrorKind::NotFound {
                    return Err(FileFault::Missing);
                }
                self.faults = self.faults.saturating_add(1);
                Err(FileFault::Failed)
            }
        }
    }
}
