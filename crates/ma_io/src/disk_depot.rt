//! The depot of real files.
ghost use Rattle.std.specs.Prelude.{◌≡◌, ◌≤◌, None, length, IfOk, OnOk, OnErr};
ghost use Rattle.ma_io.specs.Count.{Counts};
ghost use Rattle.ma_io.specs.Disk.{no_faults, counts_after_fetch, counts_after_store};
ghost use Rattle.ma_io.specs.Fetch.{is_failed_fetch, is_denied_fetch};
ghost use Rattle.ma_io.specs.Store.{is_failed_store};

use crate::faults::{FetchFault, StoreFault};
use crate::replacing::store_file;
use crate::streams::read_whole;
use crate::traits::Depot;
use std::alloc::Global;
use std::fs;
use std::io::ErrorKind;
use std::marker::Model;
use std::rt::Files;

/// The files of the system, under their paths. It tells nothing of what they hold.
///
/// A store under `X` writes a new file `X.unfinished`, which then takes the name `X`. So a run that is
/// killed, or a disk that is full, leaves the old file whole. A file `X.unfinished` that was there is lost,
/// and a run that is killed may leave one. The new file has the permissions of the old one; its owner is
/// who runs, and a further name (a hard link) of the old file keeps the old bytes. What can't be replaced
/// is written itself, and a fault may leave a front of the bytes there: a device, a link, a file in a folder
/// that takes no new one.
#[derive(Drop)]
pub struct DiskDepot<R> {
    rt: R,
    fetch_faults: u64,
    store_faults: u64,
    denied: u64,
}

impl<R> Model for DiskDepot<R> {
    ghost use Rattle.ma_io.specs.Disk.{DiskCounts};

    ghost Value = { DiskCounts };

    ghost view = { λ d. record { fetch_faults = d.fetch_faults; store_faults = d.store_faults; denied = d.denied } };
}

impl<R: Files> DiskDepot<R> {
    /// The files that this runtime reaches, as in `DiskDepot::new(&rt)`.
    pub fn new(rt: R) -> DiskDepot<R>
        ensures { result ≡ no_faults }
    {
        DiskDepot {
            rt,
            fetch_faults: 0,
            store_faults: 0,
            denied: 0,
        }
    }
}

impl<R: Files + AllocGlobal> Depot for DiskDepot<R> {
    ghost held = { λ d. record { files = None; fetch_faults = d.fetch_faults; store_faults = d.store_faults; denied = d.denied } };

    fn fetch(&mut self, name: &str, into: &mut Vec<u8>, most: usize) -> Result<(), FetchFault>
        ensures length { OnOk result (length into.new.items ≤ most) }
        ensures err { OnErr result (into.new.items ≡ into.old.items) }
        ensures after { self.new ≡ counts_after_fetch self.old result }
        ensures fetch_faults { Counts (is_failed_fetch result) self.old.fetch_faults self.new.fetch_faults }
        ensures denied { Counts (is_denied_fetch result) self.old.denied self.new.denied }
    {
        match read_file(&self.rt, *into.allocator(), name, most) {
            Ok(bytes) => {
                *into = bytes;
                Ok(())
            }
            Err(FetchFault::Failed) => {
                self.fetch_faults = self.fetch_faults.saturating_add(1);
                Err(FetchFault::Failed)
            }
            Err(FetchFault::Absent) => {
                self.denied = self.denied.saturating_add(1);
                Err(FetchFault::Absent)
            }
            Err(FetchFault::TooLong) => {
                self.denied = self.denied.saturating_add(1);
                Err(FetchFault::TooLong)
            }
            Err(FetchFault::Memory) => Err(FetchFault::Memory),
        }
    }

    fn store(&mut self, name: &str, bytes: &[u8]) -> Result<(), StoreFault>
        ensures after { self.new ≡ counts_after_store self.old result }
        ensures store_faults { Counts (is_failed_store result) self.old.store_faults self.new.store_faults }
    {
        match store_file(&self.rt, self.rt.alloc(), name, bytes) {
            Ok(()) => Ok(()),
            Err(StoreFault::Failed) => {
                self.store_faults = self.store_faults.saturating_add(1);
                Err(StoreFault::Failed)
            }
            Err(StoreFault::Memory) => Err(StoreFault::Memory),
        }
    }
}

/// The bytes of the file, if there are at most `most`.
fn read_file<R: Files>(
    rt: &R,
    alloc: Global,
    name: &str,
    most: usize,
) -> Result<Vec<u8>, FetchFault>
    ensures { IfOk result (λ bytes. length bytes.items ≤ most) }
{
    let mut file = match fs::open(rt, name) {
        Ok(file) => file,
        Err(error) if error.kind() == ErrorKind::NotFound => return Err(FetchFault::Absent),
        Err(_) => return Err(FetchFault::Failed),
    };
    let mut bytes = Vec::new(alloc);
    read_whole(&mut file, &mut bytes, most)?;
    Ok(bytes)
}
