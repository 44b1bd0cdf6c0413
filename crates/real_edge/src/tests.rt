use crate::files::read_whole;
use crate::{FileDisk, FileShelf, StreamSink, StreamSource};
use outside::{Disk, Failed, Shelf, ShelfError, Sink, Source};
use std::fs;
use std::io::{self, Read, Write};
use std::test::Fail;

// A reader and writer that moves a byte in its first call, and fails in each later one.
#[derive(Drop)]
struct Breaking {
    calls: u32,
}

impl Breaking {
    fn call(&mut self) -> io::Result<()> {
        self.calls = self.calls.saturating_add(1);
        if self.calls == 1 {
            Ok(())
        } else {
            Err(io::Error::from(io::ErrorKind::BrokenPipe))
        }
    }
}

impl Read for Breaking {
    fn read(&mut self, into: &mut [u8]) -> io::Result<usize> {
        self.call()?;
        match into.first_mut() {
            Some(first) => {
                *first = b'x';
                Ok(1)
            }
            None => Ok(0),
        }
    }
}

impl Write for Breaking {
    fn write(&mut self, bytes: &[u8]) -> io::Result<usize> {
        self.call()?;
        Ok(bytes.len().min(1))
    }

    fn flush(&mut self) -> io::Result<()> {
        Ok(())
    }
}

#[test]
fn streams_count_what_fails(rt: HostRuntime) -> Result<(), Fail> {
    let mut source = StreamSource::new(Breaking { calls: 0 });
    let mut piece = [0u8; 4];
    assert_eq!(rt; source.take(&mut piece), Ok(1));
    assert_eq!(rt; piece, [b'x', 0, 0, 0]);
    assert_eq!(rt; source.take(&mut piece), Err(Failed));
    assert_eq!(rt; source.take(&mut piece), Err(Failed));
    assert_eq!(rt; source.faults(), 2);
    let mut sink = StreamSink::new(Breaking { calls: 0 });
    assert_eq!(rt; sink.give(b"ab"), Ok(1));
    assert_eq!(rt; sink.give(b"b"), Err(Failed));
    assert_eq!(rt; sink.faults(), 1);
    Ok(())
}

#[test]
fn a_file_that_breaks_is_not_read(rt: HostRuntime) {
    let read = read_whole(rt.alloc(), &mut Breaking { calls: 0 });
    assert_eq!(rt; read.err(), Some(ShelfError::Failed));
}

#[test]
fn the_shelf_reads_files_of_the_system(rt: HostRuntime) -> Result<(), Fail> {
    let alloc = rt.alloc();
    let name = "real_edge_file";
    fs::write(&rt, name, b"version = 1\n\xff".as_slice())?;
    let mut shelf = FileShelf::new(alloc, &rt);
    let read = shelf.read_file(alloc, name);
    fs::remove_file(&rt, name)?;
    assert_eq!(rt;
        read.ok().unwrap_or(Vec::new(alloc)).as_slice(),
        b"version = 1\n\xff".as_slice()
    );
    assert_eq!(rt;
        shelf.read_file(alloc, name).err(),
        Some(ShelfError::Missing)
    );
    assert_eq!(rt; shelf.faults(), 0);
    for (path, faults) in [(".", 1), ("a\0b", 2)] {
        assert_eq!(rt;
            shelf.read_file(alloc, path).err(),
            Some(ShelfError::Failed),
            "{path}"
        );
        assert_eq!(rt; shelf.faults(), faults, "{path}");
    }
    Ok(())
}

#[test]
fn the_shelf_gives_files_of_the_system_as_disks(rt: HostRuntime) -> Result<(), Fail> {
    let alloc = rt.alloc();
    let name = "real_edge_disk.log";
    let mut shelf = FileShelf::new(alloc, &rt);
    let mut disk = shelf.take_disk(alloc, name)?;
    assert_eq!(rt; disk.length(), Ok(0));
    assert_eq!(rt; disk.write_at(0, b"CQEJRNL1"), Ok(()));
    assert_eq!(rt; disk.write_at(6, b"L2\0"), Ok(()));
    assert_eq!(rt; disk.sync(), Ok(()));
    shelf.give_disk(name, disk);
    assert_eq!(rt; fs::read(&rt, name)?.as_slice(), b"CQEJRNL2\0".as_slice());
    let mut disk = shelf.take_disk(alloc, name)?;
    assert_eq!(rt; disk.length(), Ok(9));
    let mut piece = [7; 4];
    assert_eq!(rt; disk.read_at(6, &mut piece), Ok(3));
    assert_eq!(rt; piece, [b'L', b'2', 0, 7]);
    assert_eq!(rt; disk.read_at(20, &mut piece), Ok(0));
    assert_eq!(rt; disk.read_at(u64::MAX, &mut piece), Err(Failed));
    shelf.give_disk(name, disk);
    let disk = shelf.take_disk(alloc, name)?;
    assert_eq!(rt; disk.faults(), 1);
    shelf.give_disk(name, disk);
    fs::remove_file(&rt, name)?;
    assert_eq!(rt; shelf.faults(), 0);
    Ok(())
}

#[test]
fn a_file_that_cannot_be_opened_is_a_fault(rt: HostRuntime) {
    let alloc = rt.alloc();
    for path in ["no_such_directory/eve.log", ".", "a\0b"] {
        let mut shelf = FileShelf::new(alloc, &rt);
        assert_eq!(rt;
            shelf.take_disk(alloc, path).err(),
            Some(ShelfError::Failed),
            "{path}"
        );
        assert_eq!(rt; shelf.faults(), 1, "{path}");
    }
}
