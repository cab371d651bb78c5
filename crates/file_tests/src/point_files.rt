//! Points and their files.
use ann_defs::Element;
use ann_shelf::{MemShelf, NoMemory, Quantity, Slip, SoundShelf};
use bin_files::{Points, PointsFault, PointsRule, read_points, read_points_as, write_points};
use std::alloc::Global;
use std::test::Fail;

// The points 0, 10, 20 and 30.
const FOUR: [u8; 12] = [4, 0, 0, 0, 1, 0, 0, 0, 0, 10, 20, 30];

// Whether a point has these bytes.
fn has_point(points: &Points, id: u32, bytes: &[u8]) -> bool {
    id < points.count() && points.at(id) == bytes
}

// The points -20, -10, 0 and a last one, which is 128 less than this byte.
fn signed(alloc: Global, last: u8) -> Result<Points, NoMemory> {
    let bytes = [108, 118, 128, last].to_vec(alloc)?;
    Ok(Points::of(Element::I8, 1, bytes))
}

// Whether points are written as this file.
fn is_written_as(shelf: &mut SoundShelf, points: &Points, file: &[u8]) -> Result<bool, Slip> {
    write_points(shelf, "again", points)?;
    Ok(shelf.bytes("again") == Some(file))
}

// Whether the four points are read as such, and written back.
fn reads_four(shelf: &mut SoundShelf, alloc: Global) -> Result<bool, Fail> {
    shelf.put("four", &FOUR)?;
    let points = read_points(alloc, shelf, "four")?;
    let read = points.count() == 4 && points.dim() == 1 && has_point(&points, 2, &[20]);
    Ok(read && is_written_as(shelf, &points, &FOUR)?)
}

#[test]
fn four_points_are_read_and_written_back(rt: HostRuntime) -> Result<(), Fail> {
    let mut shelf = SoundShelf::new(rt.alloc());
    assert!(rt; reads_four(&mut shelf, rt.alloc())?);
    Ok(())
}

#[test]
fn points_are_made_of_bytes(rt: HostRuntime) -> Result<(), Fail> {
    let made = Points::from_bytes(2, [0, 10, 20, 30].to_vec(rt.alloc())?);
    assert!(rt; made.count() == 2 && has_point(&made, 1, &[20, 30]));
    Ok(())
}

// Whether points are signed and the same as others of these bytes but for the last.
fn is_signed(alloc: Global, points: &Points, last: u8) -> Result<bool, NoMemory> {
    let others = signed(alloc, last)?;
    Ok(points.element() == Element::I8 && points.is_same(&others))
}

// Whether a file of the points -20, -10, 0 and 10 is read as such, and written back.
fn reads_signed(shelf: &mut SoundShelf, alloc: Global) -> Result<bool, Fail> {
    let file = [4, 0, 0, 0, 1, 0, 0, 0, 0xec, 0xf6, 0, 10];
    shelf.put("signed", &file)?;
    let points = read_points_as(alloc, shelf, "signed", Element::I8)?;
    Ok(is_signed(alloc, &points, 138)? && is_written_as(shelf, &points, &file)?)
}

#[test]
fn signed_points_are_read_and_written_back(rt: HostRuntime) -> Result<(), Fail> {
    let mut shelf = SoundShelf::new(rt.alloc());
    assert!(rt; reads_signed(&mut shelf, rt.alloc())?);
    Ok(())
}

// Whether points are the same as unsigned ones of the same bytes.
fn is_same_unsigned(alloc: Global, points: &Points) -> Result<bool, NoMemory> {
    let unsigned = Points::from_bytes(1, [108, 118, 128, 138].to_vec(alloc)?);
    Ok(points.is_same(&unsigned))
}

// Whether points that differ in a number or in the element are told apart.
fn tells_apart(alloc: Global) -> Result<bool, NoMemory> {
    let points = signed(alloc, 138)?;
    Ok(
        is_signed(alloc, &points, 138)?
            && !is_signed(alloc, &points, 139)?
            && !is_same_unsigned(alloc, &points)?,
    )
}

#[test]
fn points_are_the_same_by_element_and_numbers(rt: HostRuntime) -> Result<(), Fail> {
    assert!(rt; tells_apart(rt.alloc())?);
    Ok(())
}

// Files, and the place and the rule of their first fault.
static MALFORMED: [(&[u8], u64, PointsRule); 8] = [
    (&[0, 0, 0, 0, 1, 0, 0, 0], 0, PointsRule::ZeroCount),
    (&[1, 0, 0, 0, 0, 0, 0, 0], 4, PointsRule::ZeroDim),
    (&[1, 0, 0, 0, 0, 8, 0, 0, 1], 9, PointsRule::ShortBody),
    (&[0, 0, 64, 0, 1, 0, 0, 0, 1], 9, PointsRule::ShortBody),
    (
        &[4, 0, 0, 0, 2, 0, 0, 0, 1, 2, 3, 4, 5, 6, 7],
        15,
        PointsRule::ShortBody,
    ),
    // A gigabyte that isn't there: no memory is taken for it.
    (&[0, 0, 64, 0, 0, 1, 0, 0, 1], 9, PointsRule::ShortBody),
    (&[0, 0, 64, 0, 0, 1, 0, 0], 8, PointsRule::ShortBody),
    (
        &[4, 0, 0, 0, 2, 0, 0, 0, 1, 2, 3, 4, 5, 6, 7, 8, 9],
        16,
        PointsRule::Trailing,
    ),
];

// The count and the dim of headers with a quantity over its limit, and the quantity with its value and its limit.
static OVER: [(u32, u32, Quantity, u64, u64); 5] = [
    (4_194_305, 1, Quantity::Count, 4_194_305, 4_194_304),
    (
        u32::MAX,
        u32::MAX,
        Quantity::Count,
        4_294_967_295,
        4_194_304,
    ),
    (1, 2_049, Quantity::Dim, 2_049, 2_048),
    (1, u32::MAX, Quantity::Dim, 4_294_967_295, 2_048),
    (
        4_194_304,
        257,
        Quantity::Cells,
        1_077_936_128,
        1_073_741_824,
    ),
];

// A header of this count and dim.
fn header(count: u32, dim: u32) -> [u8; 8] {
    let mut bytes = [0u8; 8];
    for (cell, byte) in bytes.iter_mut().zip(count.to_le_bytes()) {
        *cell = byte;
    }
    for (cell, byte) in bytes.iter_mut().skip(4).zip(dim.to_le_bytes()) {
        *cell = byte;
    }
    bytes
}

// Whether a file of points is refused for this fault.
fn is_refused(alloc: Global, bytes: &[u8], fault: PointsFault) -> Result<bool, NoMemory> {
    let mut shelf = MemShelf::new(alloc);
    shelf.put("points", bytes)?;
    Ok(read_points(alloc, &mut shelf, "points").err() == Some(fault))
}

#[test]
fn a_file_is_judged_by_its_first_broken_rule(rt: HostRuntime) -> Result<(), Fail> {
    for (bytes, place, rule) in &MALFORMED {
        let (place, rule) = (*place, *rule);
        assert!(rt; is_refused(rt.alloc(), bytes, PointsFault::Malformed { place, rule })?);
    }
    for (count, dim, name, value, limit) in &OVER {
        let (name, value, limit) = (*name, *value, *limit);
        let fault = PointsFault::TooLarge { name, value, limit };
        assert!(rt; is_refused(rt.alloc(), &header(*count, *dim), fault)?);
    }
    Ok(())
}

#[test]
fn each_cut_of_points_is_refused_where_it_ends(rt: HostRuntime) -> Result<(), Fail> {
    for cut in 0..FOUR.len() {
        let rule = if cut < 8 {
            PointsRule::ShortHeader
        } else {
            PointsRule::ShortBody
        };
        let fault = PointsFault::Malformed {
            place: cut as u64,
            rule,
        };
        assert!(rt; is_refused(rt.alloc(), &FOUR[..cut], fault)?);
    }
    Ok(())
}

// Whether a write of points with one failing call is told and leaves the file as it was.
fn leaves_the_old_file(alloc: Global, call: u64) -> Result<bool, NoMemory> {
    let points = signed(alloc, 138)?;
    let mut shelf = MemShelf::new(alloc);
    shelf.put("a", &[7])?;
    shelf.fail_call(call)?;
    let told = write_points(&mut shelf, "a", &points) == Err(Slip::Failed);
    Ok(told && shelf.bytes("a") == Some([7].as_slice()))
}

#[test]
fn a_failed_call_of_a_write_is_told(rt: HostRuntime) -> Result<(), Fail> {
    for call in 1..5u64 {
        assert!(rt; leaves_the_old_file(rt.alloc(), call)?);
    }
    Ok(())
}

#[test]
fn a_failed_call_of_a_read_is_told(rt: HostRuntime) -> Result<(), Fail> {
    let mut shelf = MemShelf::new(rt.alloc());
    shelf.put("four", &FOUR)?;
    shelf.fail_call(1)?;
    assert!(rt; read_points(rt.alloc(), &mut shelf, "four").err() == Some(PointsFault::Read));
    Ok(())
}
