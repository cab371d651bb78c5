// A list of files by name, as the shelves in memory keep it. Of two files of one name the first counts.
ghost use Rattle.std.specs.Prelude.{◌≡◌, true, false, ◌++◌, ◌<◌, ◌≤◌, length, OnOk, OnErr, IfOk, IfSome, IsSome, None, MatchOption, option_map};
ghost use Rattle.std.specs.FinMap.{get};
ghost use Rattle.ann_shelf.specs.Files.{bytes_of, with_file, without_file, Reads};
ghost use Rattle.ann_shelf.specs.NamedFiles.{files_of, IsPlace, IsAbsent};

use std::alloc::{AllocError, Global};

// Where the first file of this name stands.
fn place_of(files: &[(String, Vec<u8>)], name: &str) -> Option<usize>
    ensures below { IfSome result (λ i. i < length files.now) }
    ensures place { MatchOption result (IsAbsent name.now files.now) (λ i. IsPlace name.now files.now i) }
{
    for (i, file) in files.iter().enumerate() {
        if file.0.as_str() == name {
            return Some(i);
        }
    }
    None
}

// Sets a file, in the place of one of this name where there is one.
pub(crate) fn set_file(
    alloc: Global,
    files: &mut Vec<(String, Vec<u8>)>,
    name: &str,
    bytes: Vec<u8>,
) -> Result<(), AllocError>
    ensures ok { OnOk result (files_of files.new.items ≡ with_file (files_of files.old.items) name.now bytes.items) }
    ensures err { OnErr result (files_of files.new.items ≡ files_of files.old.items) }
{
    match place_of(files, name) {
        Some(i) => {
            files[i].1 = bytes;
            Ok(())
        }
        None => {
            let key = String::from_str(alloc, name)?;
            files.push((key, bytes))?;
            Ok(())
        }
    }
}

// Adds a piece at the end of a file, where there is one.
pub(crate) fn extend_file(
    files: &mut Vec<(String, Vec<u8>)>,
    name: &str,
    piece: &[u8],
) -> Result<bool, AllocError>
    ensures held { IfOk result (λ found. found ≡ true → IsSome (get (files_of files.old.items) name.now) × (files_of files.new.items
        ≡ with_file (files_of files.old.items) name.now (bytes_of (files_of files.old.items) name.now ++ piece.now))) }
    ensures wanted { OnErr result (IsSome (get (files_of files.old.items) name.now)) }
    ensures missing { IfOk result (λ found. found ≡ false → (get (files_of files.old.items) name.now ≡ None) × (files_of files.new.items ≡ files_of files.old.items)) }
    ensures err { OnErr result (files_of files.new.items ≡ files_of files.old.items) }
{
    match place_of(files, name) {
        Some(i) => {
            files[i].1.extend_from_slice(piece)?;
            Ok(true)
        }
        None => Ok(false),
    }
}

// Takes a file out of the list, and returns its bytes if there was one.
pub(crate) fn take_file(files: &mut Vec<(String, Vec<u8>)>, name: &str) -> Option<Vec<u8>>
    ensures value { option_map (λ bytes. bytes.items) result ≡ get (files_of files.old.items) name.now }
    ensures rest { files_of files.new.items ≡ without_file (files_of files.old.items) name.now }
{
    let i = place_of(files, name)?;
    let (_, bytes) = files.remove(i);
    while let Some(i) = place_of(files, name) {
        files.remove(i);
    }
    Some(bytes)
}

// A file's bytes, where there is one.
pub(crate) fn file_at<'a>(files: &'a [(String, Vec<u8>)], name: &str) -> Option<&'a [u8]>
    ensures { option_map (λ s. s.now) result ≡ get (files_of files.entry.now) name.now }
{
    match place_of(files, name) {
        Some(i) => Some(files[i].1.as_slice()),
        None => None,
    }
}

// The bytes from a place on, as many as there is room for, and at most this many.
pub(crate) fn read_from(bytes: &[u8], at: u64, most: usize, into: &mut [u8]) -> usize
    requires some { 0 < length into.old → 0 < most }
    ensures bound { result ≤ length into.new }
    ensures most { result ≤ most }
    ensures reads { Reads bytes.now at result into.new }
{
    if at >= bytes.len() as u64 {
        return 0;
    }
    let rest = &bytes[at as usize..];
    let k = rest.len().min(into.len()).min(most);
    into[..k].copy_from_slice(&rest[..k]);
    k
}
