use crate::{FileDisk, FileShelf, Lockable};
use outside::{Disk, Failed, Shelf, ShelfError};
use std::alloc::Allocator;
use std::cell::Cell;
use std::fs::{self, Files, Metadata, OpenFile, OpenOptions};
use std::io::{self, Read, Seek, SeekFrom, Write};
use std::test::Fail;

// A file of this length, of which somebody else may have the lock. Its sync fails once, if at all,
// and says behind it that all is well, as a system does that has taken what it couldn't write for
// written.
#[derive(Drop)]
struct Forgetful {
    length: u64,
    fails: Cell<bool>,
    is_locked: bool,
}

impl Read for Forgetful {
    fn read(&mut self, _into: &mut [u8]) -> io::Result<usize> {
        Ok(0)
    }
}

impl Write for Forgetful {
    fn write(&mut self, bytes: &[u8]) -> io::Result<usize> {
        if self.length == 0 {
            Ok(bytes.len())
        } else {
            Err(io::Error::from(io::ErrorKind::StorageFull))
        }
    }

    fn flush(&mut self) -> io::Result<()> {
        Ok(())
    }
}

impl Seek for Forgetful {
    fn seek(&mut self, _to: SeekFrom) -> io::Result<u64> {
        Ok(0)
    }
}

impl OpenFile for Forgetful {
    fn metadata(&self) -> io::Result<Metadata> {
        Ok(Metadata::of_file(self.length))
    }

    fn set_len(&self, _size: u64) -> io::Result<()> {
        unsupported()
    }

    fn sync_all(&self) -> io::Result<()> {
        if self.fails.replace(false) {
            Err(io::Error::from(io::ErrorKind::StorageFull))
        } else {
            Ok(())
        }
    }

    fn sync_data(&self) -> io::Result<()> {
        unsupported()
    }
}

impl Lockable for Forgetful {
    fn lock_alone(&self) -> io::Result<()> {
        if self.is_locked {
            Err(io::Error::from(io::ErrorKind::WouldBlock))
        } else {
            Ok(())
        }
    }
}

fn unsupported<T>() -> io::Result<T> {
    Err(io::Error::from(io::ErrorKind::Unsupported))
}

// A system where each file has this length, where the sync of one path fails, and where another is
// locked.
#[derive(Drop)]
struct OneUnsynced {
    length: u64,
    path: &'static str,
    locked: &'static str,
}

impl Files for OneUnsynced {
    type File = Forgetful;

    type Dir = Forgetful;

    fn open_file(&self, _how: &OpenOptions, path: &str) -> io::Result<Forgetful> {
        Ok(Forgetful {
            length: self.length,
            fails: Cell::new(path == self.path),
            is_locked: path == self.locked,
        })
    }

    fn open_dir(&self, _path: &str) -> io::Result<Forgetful> {
        unsupported()
    }

    fn metadata(&self, _path: &str) -> io::Result<Metadata> {
        unsupported()
    }

    fn symlink_metadata(&self, _path: &str) -> io::Result<Metadata> {
        unsupported()
    }

    fn copy(&self, _from: &str, _to: &str) -> io::Result<u64> {
        unsupported()
    }

    fn rename(&self, _from: &str, _to: &str) -> io::Result<()> {
        unsupported()
    }

    fn remove_file(&self, _path: &str) -> io::Result<()> {
        unsupported()
    }

    fn create_dir(&self, _path: &str) -> io::Result<()> {
        unsupported()
    }

    fn remove_dir(&self, _path: &str) -> io::Result<()> {
        unsupported()
    }

    fn remove_dir_all<B: Allocator>(&self, _alloc: B, _path: &str) -> io::Result<()> {
        unsupported()
    }
}

#[test]
fn no_sync_succeeds_behind_one_that_failed(rt: HostRuntime) {
    let file = Forgetful {
        length: 0,
        fails: Cell::new(true),
        is_locked: false,
    };
    let mut disk = FileDisk::new(file, 0);
    assert_eq!(rt; disk.write_at(0, b"x"), Ok(()));
    assert_eq!(rt; disk.sync(), Err(Failed));
    assert_eq!(rt; disk.sync(), Err(Failed));
    assert_eq!(rt; disk.faults(), 2);
    assert_eq!(rt; disk.length(), Ok(0));
}

#[test]
fn no_sync_succeeds_behind_a_write_that_failed(rt: HostRuntime) -> Result<(), Fail> {
    let alloc = rt.alloc();
    let (length, path, locked) = (1, "", "");
    let system = OneUnsynced {
        length,
        path,
        locked,
    };
    let mut shelf = FileShelf::new(alloc, &system);
    let mut disk = shelf.take_disk(alloc, "logs/eve.log")?;
    assert_eq!(rt; disk.sync(), Ok(()));
    assert_eq!(rt; disk.write_at(0, b"x"), Err(Failed));
    shelf.give_disk("logs/eve.log", disk);
    let mut other = shelf.take_disk(alloc, "logs/ann.log")?;
    assert_eq!(rt; other.sync(), Ok(()));
    shelf.give_disk("logs/ann.log", other);
    let mut disk = shelf.take_disk(alloc, "logs/eve.log")?;
    assert_eq!(rt; disk.sync(), Err(Failed));
    assert_eq!(rt; disk.faults(), 2);
    shelf.give_disk("logs/eve.log", disk);
    Ok(())
}

#[test]
fn the_directory_of_an_empty_file_is_synced(rt: HostRuntime) {
    let alloc = rt.alloc();
    for (length, path, name, refusal) in [
        (0, "a/logs", "a/logs/eve.log", Some(ShelfError::Failed)),
        (0, ".", "eve.log", Some(ShelfError::Failed)),
        (0, "/", "/eve.log", Some(ShelfError::Failed)),
        (0, "a", "a/logs/eve.log", None),
        (1, "a/logs", "a/logs/eve.log", None),
    ] {
        let locked = "";
        let system = OneUnsynced {
            length,
            path,
            locked,
        };
        let mut shelf = FileShelf::new(alloc, &system);
        assert_eq!(rt; shelf.take_disk(alloc, name).err(), refusal, "{name}");
        assert_eq!(rt; shelf.faults(), u64::from(refusal.is_some()), "{name}");
    }
}

#[test]
fn a_device_is_no_disk(rt: HostRuntime) -> Result<(), Fail> {
    let alloc = rt.alloc();
    let mut shelf = FileShelf::new(alloc, &rt);
    assert_eq!(rt;
        shelf.take_disk(alloc, "/dev/null").err(),
        Some(ShelfError::Failed)
    );
    assert_eq!(rt; shelf.faults(), 1);
    let mut options = OpenOptions::new();
    options.read(true).write(true);
    let mut disk = FileDisk::new(options.open(&rt, "/dev/null")?, 0);
    assert_eq!(rt; disk.length(), Err(Failed));
    Ok(())
}

#[test]
fn a_locked_file_is_a_fault_and_no_other(rt: HostRuntime) -> Result<(), Fail> {
    let alloc = rt.alloc();
    let (length, path, locked) = (0, "", "logs/eve.log");
    let system = OneUnsynced {
        length,
        path,
        locked,
    };
    let mut shelf = FileShelf::new(alloc, &system);
    let refusal = shelf.take_disk(alloc, locked).err();
    assert_eq!(rt; refusal, Some(ShelfError::Failed));
    assert_eq!(rt; shelf.faults(), 1);
    let refusal = shelf.take_disk(alloc, locked).err();
    assert_eq!(rt; refusal, Some(ShelfError::Failed));
    assert_eq!(rt; shelf.faults(), 2);
    let disk = shelf.take_disk(alloc, "logs/ann.log")?;
    shelf.give_disk("logs/ann.log", disk);
    assert_eq!(rt; shelf.faults(), 2);
    Ok(())
}

#[test]
fn a_disk_is_taken_by_one_shelf_at_a_time(rt: HostRuntime) -> Result<(), Fail> {
    let alloc = rt.alloc();
    let name = "real_edge_locked.log";
    let mut first = FileShelf::new(alloc, &rt);
    let mut second = FileShelf::new(alloc, &rt);
    let mut disk = first.take_disk(alloc, name)?;
    assert_eq!(rt; disk.write_at(0, b"CQEJRNL1"), Ok(()));
    let refusal = second.take_disk(alloc, name).err();
    assert_eq!(rt; refusal, Some(ShelfError::Failed));
    assert_eq!(rt; second.faults(), 1);
    first.give_disk(name, disk);
    let disk = second.take_disk(alloc, name)?;
    assert_eq!(rt;
        first.take_disk(alloc, name).err(),
        Some(ShelfError::Failed)
    );
    second.give_disk(name, disk);
    fs::remove_file(&rt, name)?;
    Ok(())
}

#[test]
fn a_disk_for_reading_is_read_beside_its_writer(rt: HostRuntime) -> Result<(), Fail> {
    let alloc = rt.alloc();
    let name = "real_edge_read.log";
    let mut writing = FileShelf::new(alloc, &rt);
    let mut reading = FileShelf::for_reading(alloc, &rt);
    let mut disk = writing.take_disk(alloc, name)?;
    let mut beside = reading.take_disk(alloc, name)?;
    assert_eq!(rt; disk.write_at(0, b"CQE"), Ok(()));
    assert_eq!(rt; beside.sync(), Ok(()));
    let mut piece = [0; 4];
    assert_eq!(rt; beside.read_at(0, &mut piece), Ok(3));
    assert_eq!(rt; piece, [b'C', b'Q', b'E', 0]);
    assert_eq!(rt; beside.write_at(0, b"x"), Err(Failed));
    assert_eq!(rt; beside.faults(), 1);
    reading.give_disk(name, beside);
    writing.give_disk(name, disk);
    assert_eq!(rt; fs::read(&rt, name)?.as_slice(), b"CQE".as_slice());
    fs::remove_file(&rt, name)?;
    assert_eq!(rt; reading.faults(), 0);
    Ok(())
}
