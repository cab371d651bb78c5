//! A long row, in which one id is replaced. The reader marks ids by their remainder by 4096, and tells those apart that
//! share a mark.
use crate::indexes::fault_of;
use ann_shelf::NoMemory;
use graph_files::{IndexFault, IndexRule};
use std::alloc::Global;
use std::test::Fail;

/// The header of an index of lists with 4200 points of degree 128, and the lengths of its first two rows.
const FRONT: [u32; 10] = [1_313_751_376, 1, 3, 4200, 1, 128, 0, 1, 0, 64];

/// The length of the file of such an index, of which all rows but the second are empty.
const LENGTH: usize = 17_088;

/// The fault of such a file whose second row holds the ids from 2 to 65, but for the word that is replaced.
fn fault_with(alloc: Global, place: usize, word: u32) -> Result<Option<IndexFault>, NoMemory> {
    let mut file = vec![in alloc; 0u8; LENGTH]?;
    for i in 0..74usize {
        let n = if i < 10 { FRONT[i] } else { i as u32 - 8 };
        let kept = if i == place { word } else { n };
        for (cell, byte) in file.iter_mut().skip(4 * i).zip(kept.to_le_bytes()) {
            *cell = byte;
        }
    }
    Ok(fault_of(alloc, file.as_slice()))
}

/// The row's last id breaks a rule.
fn last(rule: IndexRule) -> Option<IndexFault> {
    Some(IndexFault::Malformed { place: 292, rule })
}

#[test]
fn ids_that_share_a_mark_are_told_apart(rt: HostRuntime) -> Result<(), Fail> {
    let rows = [
        (73usize, 65u32, None),
        (73, 4_098, None),
        (10, 4_161, None),
        (73, 2, last(IndexRule::DoubleEdge)),
        (73, 64, last(IndexRule::DoubleEdge)),
        (73, 1, last(IndexRule::SelfEdge)),
        (73, 4_200, last(IndexRule::IdRange)),
    ];
    for (place, id, fault) in rows {
        assert!(rt;
            fault_with(rt.alloc(), place, id)? == fault,
            "{id} at {place}"
        );
    }
    Ok(())
}
