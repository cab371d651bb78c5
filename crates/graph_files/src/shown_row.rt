//! Rows that a window shows whole, which are read and tested many ids at once.
ghost use Rattle.std.specs.Prelude.{◌≡◌, ◌≢◌, ◌+◌, ◌*◌, ◌<◌, ◌≤◌, ◌^◌, List, ℕ, true, [], length, nat_eq, take, Ok};
ghost use Rattle.std.specs.List.{All, IsDistinct};
ghost use Rattle.graph_files.specs.Grammar.{ids_at};
ghost use Rattle.graph_files.specs.Reading.{AreBytesIn, Shows};
ghost use Rattle.graph_rows.specs.Members.{holds, AreAscending};
ghost use Rattle.graph_rows.specs.WellFormed.{IsRowIn};

use crate::read_rows::among;
use crate::window::Window;
use ann_defs::MAX_DEGREE;
use graph_rows::Members;

// Whether each id is in its layer, and none is the row's own. All are tested, without a branch.
fn are_others(members: Members, own: u32, ids: &[u32]) -> bool
    requires { AreAscending members }
    ensures inside { result ≡ true → All (λ v. holds members.entry v ≡ true) ids.now }
    ensures others { result ≡ true → All (λ v. v ≢ own) ids.now }
{
    let mut clean = true;
    for id in ids {
        clean &= members.hold(*id);
        clean &= *id != own;
    }
    clean
}

// Whether the ids of a row all differ. Each is marked by its remainder; only where the mark is there already, the id is
// compared with those before it.
fn are_apart(ids: &[u32], own: u32, marks: &mut [u32; 4096]) -> bool
    ensures { result ≡ true → IsDistinct nat_eq ids.now }
{
    for i in 0..ids.len() {
        let id = ids[i];
        if marks[id as usize % 4096] == own && among(id, &ids[..i]) {
            return false;
        }
        marks[id as usize % 4096] = own;
    }
    true
}

/// Whether the window shows so many ids of a row from a place on, none of which breaks a rule. Then they are at the
/// front of the room.
///
/// The marks are of any earlier rows: a mark says nothing but that ids have to be compared.
pub(crate) fn read_shown(
    window: &Window,
    members: Members,
    own: u32,
    at: u64,
    len: usize,
    ids: &mut [u32],
    marks: &mut [u32; 4096],
) -> bool
    requires place { at + 32768 < 2 ^ 64 }
    requires len { len ≤ MAX_DEGREE }
    requires room { len ≤ length ids.old }
    requires ascending { AreAscending members }
    ensures ids { result ≡ true → (file : List ℕ) → Shows file window.now → ids_at (holds members.entry) own file len at [] ≡ Ok (take len ids.new) }
    ensures row { result ≡ true → IsRowIn (holds members.entry) len own (take len ids.new) }
    ensures bytes { result ≡ true → (file : List ℕ) → Shows file window.now → AreBytesIn file at (at + 4 * len) }
{
    let row = &mut ids[..len];
    if !window.words(at, row) {
        return false;
    }
    if !are_others(members, own, row) {
        return false;
    }
    are_apart(row, own, marks)
}
