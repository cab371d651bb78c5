//! Files of a real folder.
use ann_shelf::{Shelf, Slip, append_all};
use folder_shelf::DirShelf;
use std::alloc::Global;
use std::fs::Files;
use std::test::Fail;
use std::{fs, io};

// An empty folder of this name.
pub(crate) fn fresh_folder(rt: &HostRuntime, name: &str) -> io::Result<()> {
    if fs::exists(rt, name)? {
        fs::remove_dir_all(rt, name)?;
    }
    fs::create_dir(rt, name)
}

// A folder of this name with a file of this path and text alone.
fn folder_with(rt: &HostRuntime, name: &str, path: &str, text: &str) -> io::Result<()> {
    fresh_folder(rt, name)?;
    fs::write(rt, path, text)
}

// How many files a folder has.
fn count_of_files(rt: &HostRuntime, name: &str) -> io::Result<u32> {
    let mut count = 0u32;
    for entry in fs::read_dir(rt, name)? {
        let _ = entry?;
        count = count.saturating_add(1);
    }
    Ok(count)
}

// Whether a file is this text.
pub(crate) fn is_text(rt: &HostRuntime, path: &str, text: &str) -> io::Result<bool> {
    let found = fs::read_to_string(rt, path)?;
    Ok(found.as_str() == text)
}

// Begins a file and appends two pieces.
pub(crate) fn write_two<F: Shelf>(
    shelf: &mut F,
    name: &str,
    first: &[u8],
    next: &[u8],
) -> Result<(), Slip> {
    shelf.begin(name)?;
    append_all(shelf, name, first)?;
    append_all(shelf, name, next)
}

// Whether these two bytes are read from a place on.
pub(crate) fn reads_two<F: Shelf>(
    shelf: &mut F,
    name: &str,
    at: u64,
    first: u8,
    next: u8,
) -> Result<bool, Slip> {
    let mut into = [0u8; 2];
    let got = shelf.read_at(name, at, &mut into)?;
    Ok(got == 2 && into[0] == first && into[1] == next)
}

// Whether one shelf and then another read these two bytes of `a` from a place on.
fn read_each<F: Shelf>(
    reader: &mut F,
    writer: &mut F,
    at: u64,
    read: [u8; 2],
    written: [u8; 2],
) -> Result<bool, Slip> {
    let old = reads_two(reader, "a", at, read[0], read[1])?;
    let new = reads_two(writer, "a", at, written[0], written[1])?;
    Ok(old && new)
}

// Writes `a` by one shelf while another begins it before and appends to it and finishes it after.
fn write_across<F: Shelf>(first: &mut F, second: &mut F) -> Result<(), Slip> {
    first.begin("a")?;
    write_two(second, "a", b"sec", b"ond")?;
    append_all(first, "a", b"first")?;
    first.finish("a")
}

// Writes a file of this piece twice.
fn write_twice<F: Shelf>(shelf: &mut F, name: &str, piece: &[u8]) -> Result<(), Slip> {
    write_two(shelf, name, piece, piece)?;
    shelf.finish(name)
}

// A piece of 200,000 bytes, each its place modulo 251.
fn long_piece(alloc: Global) -> Result<Vec<u8>, Fail> {
    let mut piece = Vec::new(alloc);
    for i in 0u32..200_000 {
        piece.push((i % 251) as u8)?;
    }
    Ok(piece)
}

// Whether two pieces that were written are read far inside, and nothing is read past their end.
fn reads_far_inside<F: Shelf>(shelf: &mut F, piece: &[u8]) -> Result<bool, Slip> {
    write_twice(shelf, "a", piece)?;
    let first = reads_two(shelf, "a", 199_999, 203, 0)?;
    let second = reads_two(shelf, "a", 262_143, 146, 147)?;
    let past = reads_two(shelf, "a", 400_000, 0, 0)?;
    Ok(first && second && !past)
}

// The same by a shelf of its own.
fn reads_pieces(rt: &HostRuntime) -> Result<bool, Fail> {
    let piece = long_piece(rt.alloc())?;
    let mut shelf = DirShelf::new(rt, rt.alloc(), "pieces.tmp");
    Ok(reads_far_inside(&mut shelf, &piece)?)
}

#[test]
fn pieces_are_appended_and_read_far_inside(rt: HostRuntime) -> Result<(), Fail> {
    fresh_folder(&rt, "pieces.tmp")?;
    assert!(rt; reads_pieces(&rt)?);
    fs::remove_dir_all(&rt, "pieces.tmp")?;
    Ok(())
}

// Replaces `a` by one shelf while another reads it. Whether each reads its own, before and after, and the file changes
// when it is finished.
fn replaces_beside_a_reader<F: Shelf>(
    rt: &HostRuntime,
    reader: &mut F,
    writer: &mut F,
) -> Result<bool, Fail> {
    let before = read_each(reader, writer, 0, *b"ol", *b"ol")?;
    write_two(writer, "a", b"new", b"?")?;
    let unfinished = is_text(rt, "replaced.tmp/a", "old!")?;
    writer.finish("a")?;
    let finished = is_text(rt, "replaced.tmp/a", "new?")?;
    let after = read_each(reader, writer, 2, *b"d!", *b"w?")?;
    Ok(before && unfinished && finished && after)
}

// The same by two shelves of the folder.
fn reads_on(rt: &HostRuntime) -> Result<bool, Fail> {
    let mut reader = DirShelf::new(rt, rt.alloc(), "replaced.tmp");
    let mut writer = DirShelf::new(rt, rt.alloc(), "replaced.tmp");
    replaces_beside_a_reader(rt, &mut reader, &mut writer)
}

#[test]
fn a_file_that_is_replaced_is_read_on_as_it_was(rt: HostRuntime) -> Result<(), Fail> {
    folder_with(&rt, "replaced.tmp", "replaced.tmp/a", "old!")?;
    assert!(rt; reads_on(&rt)?);
    fs::remove_dir_all(&rt, "replaced.tmp")?;
    Ok(())
}

// Whether `a` is what the first of two shelves wrote, then what the second did, and the only file of the folder.
fn leaves_one_of_the_two<F: Shelf>(
    rt: &HostRuntime,
    first: &mut F,
    second: &mut F,
) -> Result<bool, Fail> {
    write_across(first, second)?;
    let earlier = is_text(rt, "two.tmp/a", "first")?;
    second.finish("a")?;
    let later = is_text(rt, "two.tmp/a", "second")?;
    Ok(earlier && later && count_of_files(rt, "two.tmp")? == 1)
}

// The same by two shelves of the folder.
fn two_write(rt: &HostRuntime) -> Result<bool, Fail> {
    let mut first = DirShelf::new(rt, rt.alloc(), "two.tmp");
    let mut second = DirShelf::new(rt, rt.alloc(), "two.tmp");
    leaves_one_of_the_two(rt, &mut first, &mut second)
}

#[test]
fn two_writers_of_one_name_leave_one_of_the_two(rt: HostRuntime) -> Result<(), Fail> {
    fresh_folder(&rt, "two.tmp")?;
    assert!(rt; two_write(&rt)?);
    fs::remove_dir_all(&rt, "two.tmp")?;
    Ok(())
}

// Begins two files and finishes none.
fn begin_two<F: Shelf>(shelf: &mut F) -> Result<(), Slip> {
    write_two(shelf, "a", b"ha", b"lf")?;
    shelf.begin("b")
}

// The same by a shelf of its own. Whether the folder has both beside the old one while the shelf is there.
fn finishes_none(rt: &HostRuntime) -> Result<bool, Fail> {
    let mut shelf = DirShelf::new(rt, rt.alloc(), "kept.tmp");
    begin_two(&mut shelf)?;
    Ok(count_of_files(rt, "kept.tmp")? == 3)
}

// Whether the old file is the only one.
fn is_kept(rt: &HostRuntime) -> io::Result<bool> {
    Ok(count_of_files(rt, "kept.tmp")? == 1 && is_text(rt, "kept.tmp/a", "old")?)
}

#[test]
fn what_is_not_finished_leaves_the_old_file(rt: HostRuntime) -> Result<(), Fail> {
    folder_with(&rt, "kept.tmp", "kept.tmp/a", "old")?;
    assert!(rt; finishes_none(&rt)?);
    assert!(rt; is_kept(&rt)?);
    fs::remove_dir_all(&rt, "kept.tmp")?;
    Ok(())
}
