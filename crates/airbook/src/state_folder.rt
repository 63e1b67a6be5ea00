// The folder in which a server keeps its state: a lock, and its journal.
use std::alloc::{AllocError, Global};
use std::fs::{File, Files, OpenOptions, TryLockError};
use std::io;
use std::io::{ErrorKind, Read, Write};

/// Why a folder of a server's state was not opened.
#[derive(Drop)]
pub enum FolderFault {
    /// Another process has locked it.
    Locked,
    /// A file of it could not be opened, locked or read.
    File(io::Error),
    /// There was no memory.
    NoMemory,
}

impl From<io::Error> for FolderFault {
    fn from(error: io::Error) -> Self {
        if error.kind() == ErrorKind::OutOfMemory {
            return FolderFault::NoMemory;
        }
        FolderFault::File(error)
    }
}

impl From<AllocError> for FolderFault {
    fn from(_: AllocError) -> Self {
        FolderFault::NoMemory
    }
}

/// A folder of a server's state, which no other process opens meanwhile.
#[derive(Drop)]
pub struct StateFolder {
    /// Locked for as long as it is open.
    _lock: File,
    /// The folder itself, to have the disk keep which names its files have.
    folder: File,
    /// The path of the journal.
    path: String,
    /// The path of a journal that is to take its place.
    new_path: String,
    /// The journal that was put in place; None before the first was.
    journal: Option<File>,
}

impl StateFolder {
    /// Opens a folder that is there, and locks it. The lock ends with the process.
    pub fn open<R: AllocGlobal + Files<File = File>>(
        rt: &R,
        path: &str,
    ) -> Result<Self, FolderFault> {
        let lock = locked(rt, path)?;
        Ok(StateFolder {
            _lock: lock,
            folder: File::open(rt, path)?,
            path: path_in(rt.alloc(), path, "journal")?,
            new_path: path_in(rt.alloc(), path, "journal.new")?,
            journal: None,
        })
    }

    /// Whether there is a journal, whatever it is.
    pub fn has_journal<R: Files<File = File>>(&self, rt: &R) -> Result<bool, FolderFault> {
        Ok(std::fs::exists(rt, self.path.as_str())?)
    }

    /// The bytes of the journal.
    pub fn read<R: AllocGlobal + Files<File = File>>(
        &self,
        rt: &R,
    ) -> Result<Vec<u8>, FolderFault> {
        let mut file = File::open(rt, self.path.as_str())?;
        let mut bytes = Vec::new(rt.alloc());
        file.read_to_end(&mut bytes)?;
        Ok(bytes)
    }

    /// Adds bytes to the journal that was put in place.
    pub fn append(&mut self, bytes: &[u8]) -> io::Result<()> {
        match &mut self.journal {
            Some(journal) => journal.write_all(bytes),
            None => Err(io::Error::from(ErrorKind::NotFound)),
        }
    }

    /// Has the disk keep what was added to the journal.
    pub fn sync(&self) -> io::Result<()> {
        match &self.journal {
            Some(journal) => journal.sync_data(),
            None => Err(io::Error::from(ErrorKind::NotFound)),
        }
    }

    /// Puts a whole journal in the place of the one that is there. The disk keeps the new one before it gets the name, and the
    /// name before this ends. Where it fails the old one may still be in place, or the new one.
    pub fn replace<R: Files<File = File>>(&mut self, rt: &R, bytes: &[u8]) -> io::Result<()> {
        let mut journal = File::create(rt, self.new_path.as_str())?;
        journal.write_all(bytes)?;
        journal.sync_all()?;
        std::fs::rename(rt, self.new_path.as_str(), self.path.as_str())?;
        self.folder.sync_all()?;
        self.journal = Some(journal);
        Ok(())
    }
}

/// The file `lock` of a folder, locked.
fn locked<R: AllocGlobal + Files<File = File>>(rt: &R, folder: &str) -> Result<File, FolderFault> {
    let path = path_in(rt.alloc(), folder, "lock")?;
    let file = OpenOptions::new()
        .write(true)
        .create(true)
        .open(rt, path.as_str())?;
    match file.try_lock() {
        Ok(()) => Ok(file),
        Err(TryLockError::WouldBlock) => Err(FolderFault::Locked),
        Err(TryLockError::Error(error)) => Err(FolderFault::from(error)),
    }
}

/// The path of a file in a folder.
fn path_in(alloc: Global, folder: &str, name: &str) -> Result<String, AllocError> {
    format!(in alloc; "{folder}/{name}")
}
