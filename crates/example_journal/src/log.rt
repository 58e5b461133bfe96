//! Where the bytes of a journal are kept: what the registry asks of it, and three logs, one of which is a file.
ghost use Rattle.std.specs.Prelude.{◌≡◌, ◌++◌, ℕ, List, length, take, Option, Some, None, IfOk, IfSome, OnOk, OnErr, option_map};

use std::alloc::Global;
use std::cell::Cell;
use std::fs::{File, OpenOptions};
use std::io::{Read, Write};
use std::path::Path;
use std::{fs, io};

/// Bytes that outlive the process. What a call has kept when it returns `Ok`, it keeps through a crash too. Of the bytes that
/// `write` was adding, a crash is taken to leave the first ones, as many as it may be: a file system that writes the blocks of
/// a file in any order does not promise that.
pub trait Log {
    // The bytes that it has. `None` claims nothing, for a type whose values do not say it, such as a file.
    ghost kept: { Self → Option (List ℕ) };

    /// Reads all bytes.
    fn read(&self, alloc: Global) -> io::Result<Vec<u8>>
        ensures { IfOk result (λ bytes. IfSome (kept self.now) (λ here. bytes.items ≡ here)) };

    /// Returns how many bytes it has.
    fn size(&self) -> io::Result<usize>
        ensures { IfOk result (λ size. IfSome (kept self.now) (λ here. length here ≡ size)) };

    /// Puts these bytes behind the first `at`, in the place of those that are there. After an error there may be any there.
    fn write(&mut self, at: usize, bytes: &[u8]) -> io::Result<()>
        ensures written { OnOk result (kept self.new ≡ option_map (λ here. take at here ++ bytes.now) (kept self.old)) }
        ensures torn { OnErr result ((part : List ℕ)
            × (kept self.new ≡ option_map (λ here. take at here ++ part) (kept self.old))) };

    /// Puts these bytes in the place of all. A crash leaves the old bytes or the new ones.
    fn replace(&mut self, bytes: Vec<u8>) -> io::Result<()>
        ensures replaced { OnOk result (kept self.new ≡ option_map (λ _. bytes.items) (kept self.old)) }
        ensures unchanged { OnErr result (kept self.new ≡ kept self.old) };
}

/// Bytes in memory, which outlive nothing: for tests, and to try the program.
impl Log for Vec<u8> {
    ghost kept = { λ v. Some v.items };

    fn read(&self, alloc: Global) -> io::Result<Vec<u8>> {
        Ok(self.as_slice().to_vec(alloc)?)
    }

    fn size(&self) -> io::Result<usize> {
        Ok(self.len())
    }

    fn write(&mut self, at: usize, bytes: &[u8]) -> io::Result<()> {
        self.truncate(at);
        Ok(self.extend_from_slice(bytes)?)
    }

    fn replace(&mut self, bytes: Vec<u8>) -> io::Result<()> {
        *self = bytes;
        Ok(())
    }
}

/// A disk that may get full or broken, to try what comes then.
#[derive(Drop)]
pub struct Disk {
    /// How many more bytes it takes.
    pub room: Cell<usize>,
    /// How many more times it can be read.
    pub reads: Cell<usize>,
}

/// A log on such a disk.
#[derive(Drop)]
pub struct Limited<'a, L: Log + Drop> {
    pub log: L,
    pub disk: &'a Disk,
}

impl<L: Log + Drop> Log for Limited<'_, L> {
    ghost kept = { λ l. L.kept l.log };

    fn read(&self, alloc: Global) -> io::Result<Vec<u8>> {
        let Some(reads) = self.disk.reads.get().checked_sub(1) else {
            return Err(io::ErrorKind::TimedOut.into());
        };
        self.disk.reads.set(reads);
        self.log.read(alloc)
    }

    fn size(&self) -> io::Result<usize> {
        self.log.size()
    }

    fn write(&mut self, at: usize, bytes: &[u8]) -> io::Result<()> {
        let room = self.disk.room.get();
        if bytes.len() > room {
            self.log.write(at, bytes.split_at(room).0)?;
            return Err(io::ErrorKind::StorageFull.into());
        }
        self.disk.room.set(room - bytes.len());
        self.log.write(at, bytes)
    }

    fn replace(&mut self, bytes: Vec<u8>) -> io::Result<()> {
        let room = self.disk.room.get();
        if bytes.len() > room {
            return Err(io::ErrorKind::StorageFull.into());
        }
        self.disk.room.set(room - bytes.len());
        self.log.replace(bytes)
    }
}

/// The file of this name, which one process uses at a time.
#[derive(Drop)]
pub struct FileLog<'a> {
    pub rt: &'a HostRuntime,
    pub path: String,
}

/// Opens the file of this name, and makes it if there is none.
fn open(rt: &HostRuntime, path: &str) -> io::Result<File> {
    OpenOptions::new()
        .read(true)
        .append(true)
        .create(true)
        .open(rt, path)
}

/// Makes a file of this name, where there is none, with these bytes, and waits until they are on the disk.
pub fn create(rt: &HostRuntime, path: &str, bytes: &[u8]) -> io::Result<()> {
    let mut file = OpenOptions::new()
        .write(true)
        .create_new(true)
        .open(rt, path)?;
    let written = file.write_all(bytes).and_then(|()| file.sync_all());
    // A part of the file would take room from others.
    written.inspect_err(|_| drop(fs::remove_file(rt, path)))
}

impl Log for FileLog<'_> {
    // No contract says what a file has.
    ghost kept = { λ f. None };

    fn read(&self, alloc: Global) -> io::Result<Vec<u8>> {
        let mut bytes = Vec::new(alloc);
        open(self.rt, self.path.as_str())?.read_to_end(&mut bytes)?;
        Ok(bytes)
    }

    // A file that is gone has no bytes. It is not made anew here.
    fn size(&self) -> io::Result<usize> {
        match fs::metadata(self.rt, self.path.as_str()) {
            Ok(file) => Ok(file.len() as usize),
            Err(error) if error.kind() == io::ErrorKind::NotFound => Ok(0),
            Err(error) => Err(error),
        }
    }

    fn write(&mut self, at: usize, bytes: &[u8]) -> io::Result<()> {
        let mut file = open(self.rt, self.path.as_str())?;
        // A shorter file would grow.
        file.set_len(file.metadata()?.len().min(at as u64))?;
        file.write_all(bytes)?;
        file.sync_all()?;
        // After a crash the name leads to the file only if the folder is on the disk too.
        match Path::new(self.path.as_str()).parent() {
            Some(folder) if !folder.as_str().is_empty() => File::open(self.rt, folder)?.sync_all(),
            _ => File::open(self.rt, ".")?.sync_all(),
        }
    }

    // The name of the new file may be that of another file of the user's, which stays, and nothing is replaced.
    // After a crash the name may still lead to the old file, which says the same. A later line waits for the folder.
    fn replace(&mut self, bytes: Vec<u8>) -> io::Result<()> {
        let new = format!(in self.rt.alloc(); "{}.new", self.path)?;
        create(self.rt, new.as_str(), bytes.as_slice())?;
        let replaced = fs::rename(self.rt, new.as_str(), self.path.as_str());
        replaced.inspect_err(|_| drop(fs::remove_file(self.rt, new.as_str())))
    }
}
