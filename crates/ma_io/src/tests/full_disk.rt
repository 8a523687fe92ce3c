//! A disk that is full.
use std::alloc::Allocator;
use std::fs::{Files, Metadata, OpenFile, OpenOptions};
use std::io::{Error, ErrorKind, Read, Result, Seek, SeekFrom, Write};

/// A disk that makes, renames and removes files, and takes no byte of them.
#[derive(Drop)]
pub struct FullDisk<R>(pub R);

#[derive(Drop)]
pub struct FullFile<F>(F);

impl<F> Write for FullFile<F> {
    fn write(&mut self, _bytes: &[u8]) -> Result<usize> {
        Err(Error::from(ErrorKind::StorageFull))
    }

    fn flush(&mut self) -> Result<()> {
        Ok(())
    }
}

impl<F: Read> Read for FullFile<F> {
    fn read(&mut self, into: &mut [u8]) -> Result<usize> {
        self.0.read(into)
    }
}

impl<F: Seek> Seek for FullFile<F> {
    fn seek(&mut self, to: SeekFrom) -> Result<u64> {
        self.0.seek(to)
    }
}

impl<F: OpenFile> OpenFile for FullFile<F> {
    fn metadata(&self) -> Result<Metadata> {
        self.0.metadata()
    }

    fn set_len(&self, size: u64) -> Result<()> {
        self.0.set_len(size)
    }

    fn sync_all(&self) -> Result<()> {
        self.0.sync_all()
    }

    fn sync_data(&self) -> Result<()> {
        self.0.sync_data()
    }
}

impl<R: Files> Files for FullDisk<R> {
    type File = FullFile<R::File>;

    type Dir = R::Dir;

    fn open_file(&self, how: &OpenOptions, path: &str) -> Result<FullFile<R::File>> {
        Ok(FullFile(self.0.open_file(how, path)?))
    }

    fn open_dir(&self, path: &str) -> Result<R::Dir> {
        self.0.open_dir(path)
    }

    fn metadata(&self, path: &str) -> Result<Metadata> {
        self.0.metadata(path)
    }

    fn symlink_metadata(&self, path: &str) -> Result<Metadata> {
        self.0.symlink_metadata(path)
    }

    fn copy(&self, from: &str, to: &str) -> Result<u64> {
        self.0.copy(from, to)
    }

    fn rename(&self, from: &str, to: &str) -> Result<()> {
        self.0.rename(from, to)
    }

    fn remove_file(&self, path: &str) -> Result<()> {
        self.0.remove_file(path)
    }

    fn create_dir(&self, path: &str) -> Result<()> {
        self.0.create_dir(path)
    }

    fn remove_dir(&self, path: &str) -> Result<()> {
        self.0.remove_dir(path)
    }

    fn remove_dir_all<B: Allocator>(&self, alloc: B, path: &str) -> Result<()> {
        self.0.remove_dir_all(alloc, path)
    }
}
