//! Worked lines.

use ann_defs::{Kind, Near};
use ann_shelf::Quantity;
use annbuild_lines::{
    BuiltLine, Fault, Moment, Rule, What, answered_line, batch_line_bytes, built_line,
    checked_line, fault_line, made_line, push_batch_line, push_query_line, query_line_bytes,
};
use bin_files::PointsRule;
use command_options::{Role, SettingName};
use std::alloc::Global;

/// A build of four points.
const TOLD: BuiltLine = BuiltLine {
    kind: Kind::Vamana,
    count: 4,
    dim: 1,
    degree: 2,
    start: 0,
    layers: 1,
    edges: 5,
};

#[test]
fn worked_build(rt: HostRuntime) {
    let built = b"built vamana count 4 dim 1 degree 2 start 0 layers 1 edges 5\n".as_slice();
    assert!(rt; built_line(TOLD).as_slice() == built);
    let checked =
        b"ok vamana count 4 dim 1 degree 2 start 0 layers 1 edges 5 longest 2\n".as_slice();
    assert!(rt; checked_line(TOLD, 2).as_slice() == checked);
}

#[test]
fn worked_counts(rt: HostRuntime) {
    assert!(rt; made_line(3, 5).as_slice() == b"made count 3 dim 5\n".as_slice());
    let answered = b"queries 100 answers 1000 total 57220337\n".as_slice();
    assert!(rt; answered_line(100, 1000, 57_220_337).as_slice() == answered);
}

/// Whether the answers to the first query have this line.
fn is_query_line(alloc: Global, answers: [Near; 2], line: &[u8]) -> bool {
    match Vec::with_capacity(alloc, query_line_bytes(2)) {
        Ok(mut buffer) => {
            push_query_line(&mut buffer, 0, answers.as_slice());
            buffer.as_slice() == line
        }
        Err(_) => false,
    }
}

#[test]
fn worked_query(rt: HostRuntime) {
    let answers = [Near { dist: 4, id: 1 }, Near { dist: 64, id: 2 }];
    assert!(rt; is_query_line(rt.alloc(), answers, b"0 1:4 2:64\n".as_slice()));
}

/// Whether the answer to this query in the third graph has this line.
fn is_batch_line(alloc: Global, moment: Moment, query: u32, answer: Near, line: &[u8]) -> bool {
    match Vec::with_capacity(alloc, batch_line_bytes(1)) {
        Ok(mut buffer) => {
            push_batch_line(&mut buffer, moment, query, 3, [answer].as_slice());
            buffer.as_slice() == line
        }
        Err(_) => false,
    }
}

#[test]
fn worked_answers_beside_a_build(rt: HostRuntime) {
    let during = Near { dist: 4, id: 1 };
    let line = b"live 0 3 1:4\n".as_slice();
    assert!(rt; is_batch_line(rt.alloc(), Moment::During, 0, during, line));
    let after = Near { dist: 100, id: 2 };
    let line = b"last 1 3 2:100\n".as_slice();
    assert!(rt; is_batch_line(rt.alloc(), Moment::After, 1, after, line));
}

/// Faults and their lines.
static FAULTS: [(Fault, &[u8]); 4] = [
    (
        Fault::Malformed {
            file: Role::Base,
            place: 0,
            rule: Rule::Points(PointsRule::ShortHeader),
        },
        b"annbuild: data is malformed at byte 0: short header\n",
    ),
    (
        Fault::TooLarge {
            name: Quantity::Count,
            value: 4_194_305,
            limit: 4_194_304,
        },
        b"annbuild: count is 4194305, limit 4194304\n",
    ),
    (
        Fault::Unfit {
            file: Role::Index,
            what: What::Count,
            found: 4,
            wanted: 3,
        },
        b"annbuild: count differs: 4 in index, 3 in data\n",
    ),
    (
        Fault::Setting {
            name: SettingName::AlphaNum,
            value: 9,
            least: 10,
            greatest: 1000,
        },
        b"annbuild: setting alpha-num is 9, allowed 10 to 1000\n",
    ),
];

#[test]
fn worked_faults(rt: HostRuntime) {
    for (fault, line) in &FAULTS {
        assert!(rt; fault_line(*fault).as_slice() == *line, "{fault:?}");
    }
}
