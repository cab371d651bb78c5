//! Files and an output in memory.
use ann_shelf::{MemOut, MemShelf, NoMemory, Out, Shelf, Slip, SoundShelf, append_all, write_all};
use std::alloc::Global;
use std::test::Fail;

// A shelf with one file.
fn one_file(alloc: Global, name: &str, bytes: &[u8]) -> Result<MemShelf, NoMemory> {
    let mut shelf = MemShelf::new(alloc);
    shelf.put(name, bytes)?;
    Ok(shelf)
}

// Whether a file has these bytes.
fn has(shelf: &MemShelf, name: &str, bytes: &[u8]) -> bool {
    shelf.bytes(name) == Some(bytes)
}

// Whether a file of a shelf that never fails has these bytes.
fn sound_has(shelf: &SoundShelf, name: &str, bytes: &[u8]) -> bool {
    shelf.bytes(name) == Some(bytes)
}

// Whether a read of up to four bytes from a place on gives these.
fn reads<F: Shelf>(shelf: &mut F, name: &str, at: u64, wanted: &[u8]) -> Result<bool, Slip> {
    let mut into = [0u8; 4];
    let got = shelf.read_at(name, at, &mut into)?;
    Ok(&into[..got] == wanted)
}

// Begins a file and appends two pieces, the first by one call. Whether that call takes it whole.
fn begin_five<F: Shelf>(shelf: &mut F, name: &str) -> Result<bool, Slip> {
    shelf.begin(name)?;
    let taken = shelf.append(name, &[1, 2, 3])?;
    append_all(shelf, name, &[4, 5])?;
    Ok(taken == 3)
}

// Whether a file that is begun beside an old one takes its place when it is finished, and not before.
fn takes_the_place(shelf: &mut MemShelf) -> Result<bool, Slip> {
    let taken = begin_five(shelf, "b")?;
    let before = has(shelf, "b", &[9]);
    shelf.finish("b")?;
    Ok(taken && before && has(shelf, "b", &[1, 2, 3, 4, 5]))
}

#[test]
fn a_file_is_begun_appended_and_finished(rt: HostRuntime) -> Result<(), Fail> {
    let mut shelf = one_file(rt.alloc(), "b", &[9])?;
    assert!(rt; takes_the_place(&mut shelf)?);
    Ok(())
}

// Whether reads of this file from three places on give what stands there.
fn reads_from_three_places(shelf: &mut MemShelf) -> Result<bool, Slip> {
    let inside = reads(shelf, "b", 1, &[2, 3, 4, 5])?;
    let last = reads(shelf, "b", 4, &[5])?;
    let end = reads(shelf, "b", 5, &[])?;
    Ok(inside && last && end)
}

#[test]
fn a_file_is_read_from_a_place_on(rt: HostRuntime) -> Result<(), Fail> {
    let mut shelf = one_file(rt.alloc(), "b", b"xyz")?;
    shelf.put("b", &[1, 2, 3, 4, 5])?;
    assert!(rt; reads_from_three_places(&mut shelf)?);
    assert!(rt; shelf.bytes("c").is_none());
    Ok(())
}

#[test]
fn reads_with_set_numbers_fail(rt: HostRuntime) -> Result<(), Fail> {
    let mut shelf = one_file(rt.alloc(), "a", &[7])?;
    shelf.fail_call(0)?;
    shelf.fail_call(2)?;
    let wanted = [
        ("a", Ok(true)),
        ("a", Err(Slip::Failed)),
        ("b", Err(Slip::Failed)),
    ];
    for (name, answer) in wanted {
        assert!(rt; reads(&mut shelf, name, 0, &[7]) == answer);
    }
    assert!(rt; shelf.calls() == 3);
    Ok(())
}

// Writes a file whose calls 1 and 3 fail. Whether just these fail.
fn write_with_faults(shelf: &mut MemShelf) -> Result<bool, Slip> {
    if shelf.begin("a") != Err(Slip::Failed) {
        return Ok(false);
    }
    shelf.begin("a")?;
    if shelf.append("a", &[9]) != Err(Slip::Failed) {
        return Ok(false);
    }
    append_all(shelf, "a", &[8])?;
    shelf.finish("a")?;
    Ok(has(shelf, "a", &[8]))
}

#[test]
fn writes_with_set_numbers_fail(rt: HostRuntime) -> Result<(), Fail> {
    let mut shelf = MemShelf::new(rt.alloc());
    shelf.fail_call(1)?;
    shelf.fail_call(3)?;
    assert!(rt; write_with_faults(&mut shelf)?);
    Ok(())
}

// Whether no call adds to a file that isn't begun.
fn refuses_what_is_not_begun(shelf: &mut MemShelf) -> bool {
    shelf.append("a", &[9]) == Err(Slip::Failed)
        && append_all(shelf, "a", &[9]) == Err(Slip::Failed)
        && shelf.finish("a") == Err(Slip::Failed)
        && has(shelf, "a", &[7])
}

#[test]
fn what_is_not_begun_is_not_written(rt: HostRuntime) -> Result<(), Fail> {
    let mut shelf = one_file(rt.alloc(), "a", &[7])?;
    assert!(rt; refuses_what_is_not_begun(&mut shelf));
    Ok(())
}

#[test]
fn a_failed_finish_leaves_the_old_file(rt: HostRuntime) -> Result<(), Fail> {
    let mut shelf = one_file(rt.alloc(), "a", &[7])?;
    shelf.fail_call(4)?;
    assert!(rt; begin_five(&mut shelf, "a")?);
    assert!(rt; shelf.finish("a") == Err(Slip::Failed) && has(&shelf, "a", &[7]));
    Ok(())
}

// Appends two pieces, each by one call. Whether each is taken whole.
fn append_three<F: Shelf>(shelf: &mut F, name: &str) -> Result<bool, Slip> {
    let two = shelf.append(name, &[1, 2])?;
    let one = shelf.append(name, &[3])?;
    Ok(two == 2 && one == 1)
}

// Whether a missing file is read as empty, and what is appended to it stands there once it is finished.
fn begins_by_an_append(shelf: &mut SoundShelf) -> Result<bool, Slip> {
    let empty = reads(shelf, "a", 0, &[])?;
    let taken = append_three(shelf, "a")?;
    let missing = shelf.bytes("a").is_none();
    shelf.finish("a")?;
    let read = reads(shelf, "a", 1, &[2, 3])?;
    Ok(empty && taken && missing && read && sound_has(shelf, "a", &[1, 2, 3]))
}

#[test]
fn a_missing_file_counts_as_empty(rt: HostRuntime) -> Result<(), Fail> {
    let mut shelf = SoundShelf::new(rt.alloc());
    assert!(rt; begins_by_an_append(&mut shelf)?);
    Ok(())
}

// Whether files to which nothing was appended are empty once they are finished, and not before.
fn finishes_empty(shelf: &mut SoundShelf) -> Result<bool, Slip> {
    shelf.begin("a")?;
    let before = sound_has(shelf, "a", &[4]);
    shelf.finish("a")?;
    shelf.finish("c")?;
    Ok(before && sound_has(shelf, "a", &[]) && sound_has(shelf, "c", &[]))
}

#[test]
fn a_file_with_nothing_appended_is_finished_empty(rt: HostRuntime) -> Result<(), Fail> {
    let mut shelf = SoundShelf::new(rt.alloc());
    shelf.put("a", &[4])?;
    assert!(rt; finishes_empty(&mut shelf)?);
    Ok(())
}

// Writes three pieces. Whether the second fails and adds nothing.
fn adds_nothing_by_a_failed_call(out: &mut MemOut) -> Result<bool, Slip> {
    let first = out.write(b"ab")?;
    let second = write_all(out, b"cd");
    write_all(out, b"ef")?;
    Ok(first == 2 && second == Err(Slip::Failed) && out.bytes() == b"abef".as_slice())
}

#[test]
fn writes_with_set_numbers_fail_and_add_nothing(rt: HostRuntime) -> Result<(), Fail> {
    let mut out = MemOut::new(rt.alloc());
    out.fail_call(2)?;
    assert!(rt; adds_nothing_by_a_failed_call(&mut out)?);
    Ok(())
}

// Reads `a` and writes `b` by calls that move at most two bytes. Whether each moves as many as it can.
fn moves_two_by_two(shelf: &mut MemShelf) -> Result<bool, Slip> {
    let inside = reads(shelf, "a", 1, &[2, 3])?;
    let last = reads(shelf, "a", 4, &[5])?;
    shelf.begin("b")?;
    let taken = shelf.append("b", &[6, 7, 8])?;
    append_all(shelf, "b", &[8, 9, 10])?;
    shelf.finish("b")?;
    Ok(inside && last && taken == 2 && has(shelf, "b", &[6, 7, 8, 9, 10]))
}

#[test]
fn a_call_moves_no_more_than_its_piece(rt: HostRuntime) -> Result<(), Fail> {
    let mut shelf = one_file(rt.alloc(), "a", &[1, 2, 3, 4, 5])?;
    shelf.set_piece(2);
    assert!(rt; moves_two_by_two(&mut shelf)?);
    // Two reads, a begin, an append, two more of three bytes, and a finish.
    assert!(rt; shelf.calls() == 7);
    Ok(())
}

#[test]
fn a_write_takes_no_more_than_its_piece(rt: HostRuntime) -> Result<(), Fail> {
    let mut out = MemOut::new(rt.alloc());
    out.set_piece(3);
    assert!(rt; out.write(b"abcd")? == 3);
    out.fail_call(3)?;
    assert!(rt; write_all(&mut out, b"defgh") == Err(Slip::Failed));
    assert!(rt; out.bytes() == b"abcdef".as_slice());
    Ok(())
}
