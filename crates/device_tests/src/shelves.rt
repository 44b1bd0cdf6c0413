ghost use Rattle.std.specs.Prelude.{◌≡◌, false, OnOk};
ghost use Rattle.outside.specs.MemoryShelves.{is_disk_out};

use crate::checks;
use crate::disks::{Step, play};
use outside::{Disk, Failed, MemoryDisk, MemoryShelf, Plan, Shelf, ShelfError};
use std::alloc::{AllocError, Global};
use std::process::Abort;
use std::test::Fail;

fn read(shelf: &mut MemoryShelf, alloc: Global, name: &str) -> Result<Vec<u8>, ShelfError> {
    shelf.read_file(alloc, name)
}

fn put(shelf: &mut MemoryShelf, alloc: Global, name: &str, bytes: &[u8]) -> Result<(), AllocError> {
    shelf.put(alloc, name, bytes)
}

// Checks why a file isn't read.
fn check_unread(
    rt: &impl Abort,
    alloc: Global,
    shelf: &mut MemoryShelf,
    name: &str,
    want: ShelfError,
) {
    assert_eq!(rt; read(shelf, alloc, name).err(), Some(want));
}

#[test]
fn a_shelf_reads_the_first_file_of_a_name(rt: HostRuntime) -> Result<(), Fail> {
    let alloc = rt.alloc();
    let mut shelf = MemoryShelf::new(alloc);
    put(&mut shelf, alloc, "p", b"version = 1")?;
    put(&mut shelf, alloc, "f", b"")?;
    put(&mut shelf, alloc, "p", b"another")?;
    let policy = read(&mut shelf, alloc, "p").ok().unwrap_or(Vec::new(alloc));
    checks::bytes(&rt, "policy", &policy, b"version = 1");
    assert!(rt; read(&mut shelf, alloc, "f").is_ok());
    check_unread(&rt, alloc, &mut shelf, "", ShelfError::Missing);
    check_unread(&rt, alloc, &mut shelf, "p ", ShelfError::Missing);
    check_looked(&rt, &shelf);
    checks::faults(&rt, shelf.faults(), 0);
    Ok(())
}

// Checks which files were looked at.
fn check_looked(rt: &impl Abort, shelf: &MemoryShelf) {
    let looked = shelf.looked();
    assert_eq!(rt; looked.len(), 4);
    for (name, read) in looked.iter().zip(["p", "f", "", "p "]) {
        assert_eq!(rt; name.as_str(), read);
    }
}

#[test]
fn a_shelf_fails_by_its_plan(rt: HostRuntime) -> Result<(), Fail> {
    let alloc = rt.alloc();
    let mut shelf = MemoryShelf::with_plan(alloc, Plan::At(vec![in alloc; 1]?));
    put(&mut shelf, alloc, "p", b"version = 1")?;
    assert!(rt; read(&mut shelf, alloc, "p").is_ok());
    check_unread(&rt, alloc, &mut shelf, "p", ShelfError::Failed);
    checks::faults(&rt, shelf.faults(), 1);
    assert!(rt; read(&mut shelf, alloc, "p").is_ok());
    Ok(())
}

// Takes the disk of a name, makes these calls of it, and gives it back.
fn use_disk(
    rt: &impl Abort,
    alloc: Global,
    shelf: &mut MemoryShelf,
    name: &str,
    steps: &[Step],
) -> Result<(), ShelfError>
    requires { is_disk_out shelf.old name.now ≡ false }
    ensures { OnOk result (is_disk_out shelf.new name.now ≡ false) }
{
    let mut disk = shelf.take_disk(alloc, name)?;
    assert!(rt; shelf.disk(name).is_none());
    play(rt, &mut disk, steps);
    shelf.give_disk(name, disk);
    Ok(())
}

// A copy of the bytes of a disk that stands on the shelf, and one byte where none does.
fn bytes_on(alloc: Global, shelf: &MemoryShelf, name: &str) -> Result<Vec<u8>, AllocError> {
    match shelf.disk(name) {
        Some(disk) => disk.bytes().to_vec(alloc),
        None => Ok(vec![in alloc; 255]?),
    }
}

// Checks what `bytes_on` says of a name.
fn check_bytes(
    rt: &impl Abort,
    alloc: Global,
    shelf: &MemoryShelf,
    name: &str,
    want: &[u8],
) -> Result<(), AllocError> {
    assert_eq!(rt; bytes_on(alloc, shelf, name)?.as_slice(), want, "{name}");
    Ok(())
}

const WRITES: [Step; 3] = [
    Step::Length(Ok(0)),
    Step::Write(0, b"abc"),
    Step::Sync(Ok(())),
];

const HAS_THREE: [Step; 1] = [Step::Length(Ok(3))];

#[test]
fn a_disk_comes_back_as_it_was_given(rt: HostRuntime) -> Result<(), Fail> {
    let alloc = rt.alloc();
    let mut shelf = MemoryShelf::new(alloc);
    assert!(rt; shelf.disk("d/eve.log").is_none());
    use_disk(&rt, alloc, &mut shelf, "d/eve.log", &WRITES)?;
    use_disk(&rt, alloc, &mut shelf, "d/eve.log", &HAS_THREE)?;
    check_bytes(&rt, alloc, &shelf, "d/eve.log", b"abc")?;
    checks::faults(&rt, shelf.faults(), 0);
    Ok(())
}

// A disk of two bytes of which the second call fails.
fn failing_disk(alloc: Global) -> Result<MemoryDisk, AllocError> {
    let plan = Plan::At(vec![in alloc; 1]?);
    MemoryDisk::with_plan(alloc, vec![in alloc; 7, 8]?, plan)
}

const FAILS: [Step; 2] = [Step::Length(Ok(2)), Step::Sync(Err(Failed))];

#[test]
fn a_disk_keeps_its_count(rt: HostRuntime) -> Result<(), Fail> {
    let alloc = rt.alloc();
    let mut shelf = MemoryShelf::new(alloc);
    let disk = failing_disk(alloc)?;
    shelf.put_disk(alloc, "eve", disk)?;
    use_disk(&rt, alloc, &mut shelf, "eve", &FAILS)?;
    check_count(&rt, alloc, &mut shelf, "eve")?;
    checks::faults(&rt, shelf.faults(), 0);
    Ok(())
}

// Takes the disk of a name, checks that one of two calls failed, and gives it back.
fn check_count(
    rt: &impl Abort,
    alloc: Global,
    shelf: &mut MemoryShelf,
    name: &str,
) -> Result<(), ShelfError>
    requires { is_disk_out shelf.old name.now ≡ false }
{
    let disk = shelf.take_disk(alloc, name)?;
    assert_eq!(rt; disk.faults(), 1);
    assert_eq!(rt; disk.calls().len(), 2);
    shelf.give_disk(name, disk);
    Ok(())
}

// Writes to an empty disk.
fn fill(disk: &mut MemoryDisk, bytes: &[u8]) -> Result<(), Failed> {
    disk.write_at(0, bytes)
}

#[test]
fn two_names_have_two_disks(rt: HostRuntime) -> Result<(), Fail> {
    let alloc = rt.alloc();
    let mut shelf = MemoryShelf::new(alloc);
    let mut first = shelf.take_disk(alloc, "a")?;
    let mut second = shelf.take_disk(alloc, "aa")?;
    fill(&mut first, b"1")?;
    fill(&mut second, b"22")?;
    shelf.give_disk("a", first);
    assert!(rt; shelf.disk("aa").is_none());
    shelf.give_disk("aa", second);
    check_bytes(&rt, alloc, &shelf, "a", b"1")?;
    check_bytes(&rt, alloc, &shelf, "aa", b"22")?;
    check_bytes(&rt, alloc, &shelf, "", &[255])?;
    Ok(())
}

#[test]
fn a_taking_that_fails_leaves_the_disk(rt: HostRuntime) -> Result<(), Fail> {
    let alloc = rt.alloc();
    let mut shelf = MemoryShelf::with_plan(alloc, Plan::At(vec![in alloc; 1, 2]?));
    shelf.put(alloc, "p", b"version = 1")?;
    shelf.put_disk(alloc, "a", MemoryDisk::new(alloc, vec![in alloc; 9]?)?)?;
    assert!(rt; shelf.read_file(alloc, "p").is_ok());
    assert_eq!(rt; shelf.take_disk(alloc, "a").err(), Some(ShelfError::Failed));
    assert_eq!(rt; shelf.take_disk(alloc, "b").err(), Some(ShelfError::Failed));
    checks::faults(&rt, shelf.faults(), 2);
    check_bytes(&rt, alloc, &shelf, "a", &[9])?;
    assert!(rt; shelf.disk("b").is_none());
    let disk = shelf.take_disk(alloc, "a")?;
    checks::bytes(&rt, "bytes", disk.bytes(), &[9]);
    Ok(())
}
