ghost use Rattle.std.specs.Prelude.{◌≡◌, ◌++◌, List, ℕ, Some, IsTrue, codes};
ghost use Rattle.std.specs.FinMap as map;
ghost use Rattle.ma_io.specs.Files.{Files};

use super::*;
use std::alloc::{AllocError, Global};
use std::test::Fail;
use std::{env, fs, io, process};

mod full_disk;

use full_disk::FullDisk;

/// Copies a file from one name to another, and says so. Its proof sees a depot and a sink only through
/// their traits.
fn copy<D: Depot, S: Sink>(alloc: Global, depot: &mut D, out: &mut S, from: &str, to: &str) -> bool
    ensures copied { (old : Files) → (D.held depot.old).files ≡ Some old → IsTrue result → (bytes : List ℕ) × (map.get old from.now ≡ Some bytes) × ((D.held depot.new).files ≡ Some (map.insert old to.now bytes)) }
    ensures said { (old : List ℕ) → (S.received out.old).written ≡ Some old → IsTrue result → (S.received out.new).written ≡ Some (old ++ codes "copied") }
{
    let mut bytes = Vec::new(alloc);
    depot.fetch(from, &mut bytes, 8).is_ok()
        && depot.store(to, bytes.as_slice()).is_ok()
        && out.put(b"copied").is_ok()
}

/// A file `a` with the bytes `12`.
fn one_file(alloc: Global) -> Result<Vec<(String, Vec<u8>)>, Fail> {
    let mut files = Vec::new(alloc);
    let name = String::from_str(alloc, "a")?;
    files.push((name, Vec::from_slice(alloc, b"12")?))?;
    Ok(files)
}

fn holds(depot: &MemDepot, name: &str, bytes: &[u8]) -> bool {
    match depot.bytes_of(name) {
        Some(held) => held == bytes,
        None => false,
    }
}

#[test]
fn a_copy_goes_through_the_traits(rt: HostRuntime) -> Result<(), Fail> {
    let alloc = rt.alloc();
    let files = one_file(alloc)?;
    assert!(rt; names_differ(files.as_slice()));
    let seconds = Vec::from_slice(alloc, &[2])?;
    let mut depot = MemDepot::new(alloc, files, Vec::new(alloc), seconds);
    let mut sink = MemSink::new(alloc, Vec::new(alloc));
    assert!(rt; copy(alloc, &mut depot, &mut sink, "a", "b"));
    // The second store fails.
    assert!(rt; !copy(alloc, &mut depot, &mut sink, "a", "c"));
    assert!(rt; copy(alloc, &mut depot, &mut sink, "b", "d"));
    assert!(rt; holds(&depot, "d", b"12") && depot.bytes_of("c").is_none());
    assert!(rt; sink.bytes() == b"copiedcopied".as_slice());
    Ok(())
}

/// A name that this test alone uses.
fn own_name(rt: &HostRuntime) -> io::Result<String> {
    let folder = env::temp_dir(rt)?;
    let own = process::id(rt.process());
    Ok(format!(in rt.alloc(); "{}/ma_io_test_{own}", folder.as_str())?)
}

/// The name of what would be beside the file.
fn name_beside(rt: &HostRuntime, name: &str) -> Result<String, AllocError> {
    format!(in rt.alloc(); "{name}.unfinished")
}

/// Whether a fetch gives these bytes.
fn gives<D: Depot>(alloc: Global, depot: &mut D, name: &str, bytes: &[u8]) -> bool {
    let mut into = Vec::new(alloc);
    depot.fetch(name, &mut into, bytes.len()).is_ok() && into.as_slice() == bytes
}

/// Whether a fetch of at most so many bytes is refused so.
fn refuses<D: Depot>(
    alloc: Global,
    depot: &mut D,
    name: &str,
    most: usize,
    why: FetchFault,
) -> bool {
    let mut into = Vec::new(alloc);
    depot.fetch(name, &mut into, most) == Err(why)
}

#[test]
fn a_file_on_the_disk_is_replaced_and_fetched(rt: HostRuntime) -> Result<(), Fail> {
    let name = own_name(&rt)?;
    let name = name.as_str();
    let beside = name_beside(&rt, name)?;
    // Longer than a block that is read at once.
    let long = vec![in rt.alloc(); 7u8; 100_000]?;
    let mut depot = DiskDepot::new(&rt);
    assert!(rt; refuses(rt.alloc(), &mut depot, name, 9, FetchFault::Absent));
    assert!(rt; depot.store(name, long.as_slice()).is_ok());
    assert!(rt; refuses(rt.alloc(), &mut depot, name, 99_999, FetchFault::TooLong));
    assert!(rt; gives(rt.alloc(), &mut depot, name, long.as_slice()));
    // What a run that was killed would leave.
    assert!(rt; depot.store(beside.as_str(), b"front").is_ok());
    assert!(rt; depot.store(name, b"new").is_ok());
    assert!(rt; gives(rt.alloc(), &mut depot, name, b"new"));
    // Nothing is beside it.
    assert!(rt; fs::remove_file(&rt, beside.as_str()).is_err());
    assert!(rt; fs::remove_file(&rt, name).is_ok());
    Ok(())
}

#[test]
fn a_store_that_fails_leaves_the_old_file(rt: HostRuntime) -> Result<(), Fail> {
    let name = own_name(&rt)?;
    let name = name.as_str();
    let beside = name_beside(&rt, name)?;
    let mut depot = DiskDepot::new(&rt);
    let mut full = DiskDepot::new((FullDisk(&rt), rt.alloc()));
    assert!(rt; depot.store(name, b"old").is_ok());
    assert!(rt; full.store(name, b"new") == Err(StoreFault::Failed));
    assert!(rt; gives(rt.alloc(), &mut depot, name, b"old"));
    assert!(rt; fs::remove_file(&rt, beside.as_str()).is_err());
    assert!(rt; fs::remove_file(&rt, name).is_ok());
    Ok(())
}

#[test]
fn a_file_with_a_folder_beside_it_is_written_itself(rt: HostRuntime) -> Result<(), Fail> {
    let name = own_name(&rt)?;
    let name = name.as_str();
    let beside = name_beside(&rt, name)?;
    let mut depot = DiskDepot::new(&rt);
    assert!(rt; fs::create_dir(&rt, beside.as_str()).is_ok());
    assert!(rt; depot.store(name, b"new").is_ok());
    assert!(rt; gives(rt.alloc(), &mut depot, name, b"new"));
    assert!(rt; depot.store(beside.as_str(), b"new") == Err(StoreFault::Failed));
    assert!(rt;
        refuses(
            rt.alloc(),
            &mut depot,
            beside.as_str(),
            9,
            FetchFault::Failed
        )
    );
    assert!(rt; fs::remove_dir(&rt, beside.as_str()).is_ok());
    assert!(rt; fs::remove_file(&rt, name).is_ok());
    Ok(())
}
