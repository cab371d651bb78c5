//! Files that are cut, each with the fault that it gets.
use annbuild_commands::{Fault, Role, Rule};
use bin_files::PointsRule;
use graph_files::IndexRule;
use std::alloc::Global;
use std::sync::Wait;
use std::thread::Threads;
use top_calls::{FOUR, FOUR_BY_FOUR, FOUR_IN_TWO_LAYERS, NONE, call};

/// Which file is cut, the length of its header, and the rules that a cut in the header and one behind it break.
type Cut = (Role, usize, Rule, Rule);

static OF_INDEX: Cut = (
    Role::Index,
    32,
    Rule::Index(IndexRule::ShortHeader),
    Rule::Index(IndexRule::Short),
);

static OF_POINTS: Cut = (
    Role::Base,
    8,
    Rule::Points(PointsRule::ShortHeader),
    Rule::Points(PointsRule::ShortBody),
);

/// Whether a check of these files ends with status 5, since one of them is cut here.
fn is_malformed<R: Threads + Wait + Sync>(
    rt: &R,
    alloc: Global,
    files: &[(&str, &[u8])],
    of: &Cut,
    cut: usize,
) -> bool {
    let (file, header, in_header, behind) = *of;
    let fault = Fault::Malformed {
        file,
        place: cut as u64,
        rule: if cut < header { in_header } else { behind },
    };
    match call(rt, alloc, "check pts ann", files, NONE) {
        Ok(ended) => ended.status.fault == Some(fault) && ended.status.code == 5,
        Err(_) => false,
    }
}

/// Whether an index that is cut here is refused where it ends.
fn is_cut_index<R: Threads + Wait + Sync>(rt: &R, alloc: Global, cut: usize) -> bool {
    let index = FOUR_IN_TWO_LAYERS.get(..cut).unwrap_or(&[]);
    is_malformed(rt, alloc, &[("pts", FOUR), ("ann", index)], &OF_INDEX, cut)
}

/// Whether points that are cut here are refused where they end.
fn are_cut_points<R: Threads + Wait + Sync>(rt: &R, alloc: Global, cut: usize) -> bool {
    let points = FOUR.get(..cut).unwrap_or(&[]);
    is_malformed(
        rt,
        alloc,
        &[("pts", points), ("ann", FOUR_BY_FOUR)],
        &OF_POINTS,
        cut,
    )
}

#[test]
fn a_cut_file_is_refused_where_it_ends(rt: HostRuntime) {
    for cut in 0..FOUR_IN_TWO_LAYERS.len() {
        assert!(rt; is_cut_index(&rt, rt.alloc(), cut), "cut at {cut}");
    }
    for cut in 0..FOUR.len() {
        assert!(rt; are_cut_points(&rt, rt.alloc(), cut), "cut at {cut}");
    }
}
