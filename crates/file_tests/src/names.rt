//! Files of a real folder by other names: absolute ones, folders and devices.
use crate::folders::{fresh_folder, is_text, reads_two, write_two};
use ann_shelf::{Shelf, Slip};
use folder_shelf::DirShelf;
use std::fs;
use std::fs::Files;
use std::test::Fail;

// The absolute name of a file `a` of this folder.
fn name_in(rt: &HostRuntime, folder: &str) -> Result<String, Fail> {
    let mut path = rt.canonicalize(rt.alloc(), folder)?;
    path.push("a")?;
    Ok(path.into_string())
}

// Writes a file of this absolute name by a shelf whose folder isn't there. Whether it is read there, and a name alone
// can't be begun.
fn writes_by_an_absolute_name<F: Shelf>(
    rt: &HostRuntime,
    shelf: &mut F,
    name: &str,
) -> Result<bool, Fail> {
    write_two(shelf, name, b"he", b"re")?;
    shelf.finish(name)?;
    let written = is_text(rt, "absolute.tmp/a", "here")?;
    let read = reads_two(shelf, name, 2, b'r', b'e')?;
    Ok(written && read && shelf.begin("a") == Err(Slip::Failed))
}

// The same by a shelf of its own.
fn writes_absolute(rt: &HostRuntime) -> Result<bool, Fail> {
    let name = name_in(rt, "absolute.tmp")?;
    let mut shelf = DirShelf::new(rt, rt.alloc(), "no_such_folder.tmp");
    writes_by_an_absolute_name(rt, &mut shelf, name.as_str())
}

#[test]
fn a_name_that_begins_with_a_slash_is_absolute(rt: HostRuntime) -> Result<(), Fail> {
    fresh_folder(&rt, "absolute.tmp")?;
    assert!(rt; writes_absolute(&rt)?);
    fs::remove_dir_all(&rt, "absolute.tmp")?;
    Ok(())
}

// Whether a read of this name fails.
fn is_not_read<F: Shelf>(shelf: &mut F, name: &str) -> bool {
    reads_two(shelf, name, 0, 0, 0) == Err(Slip::Failed)
}

// Whether neither a folder nor a device nor a file that isn't there is read, and the folder isn't begun.
fn reads_no_such<F: Shelf>(shelf: &mut F) -> bool {
    is_not_read(shelf, ".")
        && is_not_read(shelf, "/dev/zero")
        && is_not_read(shelf, "no_such_file.tmp")
        && shelf.begin(".") == Err(Slip::Failed)
}

#[test]
fn folders_and_devices_are_not_read(rt: HostRuntime) {
    let mut shelf = DirShelf::new(&rt, rt.alloc(), ".");
    assert!(rt; reads_no_such(&mut shelf));
}

// Whether a file with this name is written and finished.
fn is_written<F: Shelf>(shelf: &mut F, name: &str) -> Result<bool, Slip> {
    write_two(shelf, name, b"go", b"ne")?;
    shelf.finish(name)?;
    Ok(true)
}

// Whether one device takes a file, and another refuses what is appended and then, since that gives it up, its end.
fn writes_to_devices<F: Shelf>(shelf: &mut F) -> bool {
    is_written(shelf, "/dev/null") == Ok(true)
        && is_written(shelf, "/dev/full") == Err(Slip::Failed)
        && shelf.finish("/dev/full") == Err(Slip::Failed)
}

#[test]
fn devices_are_written_straight(rt: HostRuntime) {
    let mut shelf = DirShelf::new(&rt, rt.alloc(), ".");
    assert!(rt; writes_to_devices(&mut shelf));
}
