//! Seeing that a file may hold the rows of a layer, before memory for them is taken.
ghost use Rattle.std.specs.Prelude.{◌≡◌, ◌⊎◌, ◌+◌, ◌*◌, ◌<◌, ◌≤◌, ◌^◌, [], IfErr, IfSome, IsErrOf};
ghost use Rattle.ann_shelf.specs.Files.{bytes_of};
ghost use Rattle.ann_shelf.specs.Shown.{OnlyReads};
ghost use Rattle.graph_files.specs.Grammar.{rows_at};
ghost use Rattle.graph_files.specs.Reading.{Fails, Shows};
ghost use Rattle.graph_rows.specs.Members.{holds, owns, count_in, AreAscending};

use crate::IndexFault;
use crate::read_rows::read_row;
use crate::window::Window;
use ann_defs::{MAX_DEGREE, MAX_POINTS};
use ann_shelf::Shelf;
use bin_files::read_full;
use graph_rows::Members;

// Whether a file ends before a place, which one byte tells. What the window shows isn't read again.
fn ends_before<F: Shelf>(
    shelf: &mut F,
    name: &str,
    window: &Window,
    place: u64,
) -> Result<bool, IndexFault>
    requires { (1 ≤ place) × (place < 2 ^ 64) }
    ensures outside { IfErr result (λ e. (e ≡ IndexFault.Read) ⊎ (e ≡ IndexFault.NoMemory)) }
    ensures only_reads { OnlyReads (F.shown shelf.old) (F.shown shelf.new) name.now (IsErrOf result IndexFault.Read) }
{
    if place <= window.from + window.len as u64 {
        return Ok(false);
    }
    let mut last = [0u8; 1];
    let got = read_full(shelf, name, place - 1, &mut last)?;
    Ok(got == 0)
}

/// Fails with the first broken rule of a layer's rows if the file is too short for a word of each row. It takes no
/// memory.
pub(crate) fn see_room<F: Shelf>(
    shelf: &mut F,
    name: &str,
    window: &mut Window,
    members: Members,
    bound: u32,
    at: u64,
) -> Result<(), IndexFault>
    requires place { at + 4294967296 < 2 ^ 64 }
    requires bound { bound ≤ MAX_DEGREE }
    requires count { (1 ≤ count_in members) × (count_in members ≤ MAX_POINTS) }
    requires ascending { AreAscending members }
    requires shows { IfSome (F.shown shelf.old).held (λ files. Shows (bytes_of files name.now) window.old) }
    ensures broken { IfErr result (λ fault. IfSome (F.shown shelf.old).held (λ files. Fails fault (rows_at (holds members.entry) bound (bytes_of files name.now) (owns members.entry) at []))) }
    ensures shows { IfSome (F.shown shelf.old).held (λ files. Shows (bytes_of files name.now) window.new) }
    ensures only_reads { OnlyReads (F.shown shelf.old) (F.shown shelf.new) name.now (IsErrOf result IndexFault.Read) }
{
    let is_short = ends_before(shelf, name, window, at + 4 * u64::from(members.count()))?;
    if !is_short {
        return Ok(());
    }
    let mut row = [0u32; MAX_DEGREE as usize];
    let mut marks = [0u32; 4096];
    let mut place = at;
    for i in 0..members.count() {
        let own = members.at(i);
        let len = read_row(
            shelf, name, window, members, bound, own, place, &mut row, &mut marks,
        )?;
        place += 4 + 4 * len as u64;
    }
    Ok(())
}
