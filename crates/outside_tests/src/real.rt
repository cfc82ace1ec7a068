//! The real folder: contents are compared whole, and each byte differs from those near it and from that a block before.
use rsfq_ids::limits::FILE_LIMIT;
use rsfq_outside::{DiskFolder, Folder, read_file};
use std::alloc::{AllocError, Global};
use std::process::Abort;
use std::rt::Files;
use std::test::Fail;

// So many bytes, which differ by place: no block whose size is a power of two repeats.
fn make_bytes(alloc: Global, count: usize) -> Result<Vec<u8>, AllocError> {
    let mut bytes = Vec::new(alloc);
    for place in 0..count {
        bytes.push((place % 251) as u8)?;
    }
    Ok(bytes)
}

// Writes so many bytes, and reads all of them, all with a longer limit, and all but the last.
fn compare<R: Files>(
    rt: &impl Abort,
    alloc: Global,
    folder: &mut DiskFolder<R>,
    count: usize,
) -> Result<(), Fail> {
    let bytes = make_bytes(alloc, count)?;
    folder.write_whole("file", &bytes)?;
    let whole = folder.read_front("file", count)?;
    assert!(rt; whole.as_slice() == bytes.as_slice(), "{count}");
    let longer = folder.read_front("file", count.saturating_add(1))?;
    assert!(rt; longer.as_slice() == bytes.as_slice(), "{count}");
    let but_one = count.saturating_sub(1).min(bytes.len());
    let front = folder.read_front("file", but_one)?;
    assert!(rt; front.as_slice() == &bytes[..but_one], "{count}");
    Ok(())
}

#[test]
fn sizes_around_the_block_of_a_read(rt: HostRuntime) -> Result<(), Fail> {
    let mut folder = DiskFolder::new(rt.alloc(), &rt);
    let sizes = [
        0, 1, 4095, 4096, 4097, 65535, 65536, 65537, 131071, 131072, 131073,
    ];
    for count in sizes {
        compare(&rt, rt.alloc(), &mut folder, count)?;
    }
    Ok(())
}

#[test]
fn sizes_around_the_limit(rt: HostRuntime) -> Result<(), Fail> {
    let alloc = rt.alloc();
    let mut folder = DiskFolder::new(alloc, &rt);
    compare(&rt, alloc, &mut folder, FILE_LIMIT + 1)?;
    assert!(rt; read_file(alloc, "file", FILE_LIMIT, &mut folder).is_err());
    compare(&rt, alloc, &mut folder, FILE_LIMIT)?;
    let bytes = make_bytes(alloc, FILE_LIMIT)?;
    match read_file(alloc, "file", FILE_LIMIT, &mut folder) {
        Ok(read) => assert!(rt; read.as_slice() == bytes.as_slice()),
        Err(_) => panic!(rt; "a file at the limit is refused"),
    }
    Ok(())
}

// A shorter text in the place of a longer one; files and folders that can't be read or written.
#[test]
fn a_write_replaces_and_faults_are_answered(rt: HostRuntime) -> Result<(), Fail> {
    let mut folder = DiskFolder::new(rt.alloc(), &rt);
    assert_eq!(rt; folder.read_front("a", 5).is_err(), true);
    folder.write_whole("a", b"hello")?;
    assert_eq!(rt; folder.read_front("a", 3)?.as_slice(), b"hel".as_slice());
    assert_eq!(rt; folder.read_front("a", 0)?.len(), 0);
    folder.write_whole("a", b"x")?;
    assert_eq!(rt; folder.read_front("a", 9)?.as_slice(), b"x".as_slice());
    assert_eq!(rt; folder.write_whole("no/b", b"x").is_err(), true);
    assert_eq!(rt; folder.read_front(".", 9).is_err(), true);
    assert_eq!(rt; folder.write_whole(".", b"x").is_err(), true);
    Ok(())
}
