//! Files of indexes with further layers.
use crate::indexes::{FOUR_POINTS, TWO_LAYERS, fault_of, is_written_back};
use crate::replaced::{Broken, first_unbroken};
use graph_files::{IndexRule, Kind};

// Layer 1 holds 1 and 3, which are in each other's rows; layer 2 holds 1.
pub(crate) const THREE_LAYERS: [u8; 108] = [
    80, 65, 78, 78, 1, 0, 0, 0, 2, 0, 0, 0, 4, 0, 0, 0, 1, 0, 0, 0, 1, 0, 0, 0, 1, 0, 0, 0, 3, 0,
    0, 0, 1, 0, 0, 0, 1, 0, 0, 0, 2, 0, 0, 0, 0, 0, 0, 0, 2, 0, 0, 0, 1, 0, 0, 0, 1, 0, 0, 0, 1, 0,
    0, 0, 1, 0, 0, 0, 2, 0, 0, 0, 1, 0, 0, 0, 3, 0, 0, 0, 1, 0, 0, 0, 3, 0, 0, 0, 1, 0, 0, 0, 1, 0,
    0, 0, 1, 0, 0, 0, 1, 0, 0, 0, 0, 0, 0, 0,
];

static TWO_BROKEN: [Broken; 15] = [
    (8, 1, 28, IndexRule::Layers),
    (8, 3, 28, IndexRule::Layers),
    (20, 0, 20, IndexRule::Degree),
    (28, 0, 28, IndexRule::Layers),
    (28, 1, 68, IndexRule::Trailing),
    (28, 3, 80, IndexRule::Short),
    (28, 17, 28, IndexRule::Layers),
    (40, 3, 40, IndexRule::Degree),
    (68, 0, 68, IndexRule::LayerIds),
    (68, 2, 76, IndexRule::LayerIds),
    (68, 5, 68, IndexRule::LayerIds),
    (72, 0, 68, IndexRule::LayerIds),
    (72, 4, 72, IndexRule::LayerIds),
    (76, 1, 80, IndexRule::Short),
    (76, 2, 76, IndexRule::Degree),
];

static THREE_BROKEN: [Broken; 13] = [
    (28, 2, 96, IndexRule::Trailing),
    (72, 2, 68, IndexRule::LayerIds),
    (72, 3, 76, IndexRule::LayerIds),
    (76, 1, 76, IndexRule::LayerIds),
    (80, 2, 80, IndexRule::Degree),
    (84, 1, 84, IndexRule::SelfEdge),
    (84, 2, 84, IndexRule::IdRange),
    (96, 0, 96, IndexRule::LayerIds),
    (96, 2, 104, IndexRule::LayerIds),
    (96, 3, 96, IndexRule::LayerIds),
    (100, 2, 100, IndexRule::LayerIds),
    (100, 3, 96, IndexRule::LayerIds),
    (104, 1, 108, IndexRule::Short),
];

#[test]
fn a_layered_index_is_read_and_written_back(rt: HostRuntime) {
    assert!(rt; is_written_back(rt.alloc(), &TWO_LAYERS, Kind::Hnsw, 1));
    assert!(rt; is_written_back(rt.alloc(), &THREE_LAYERS, Kind::Hnsw, 2));
}

#[test]
fn a_layered_file_may_have_one_layer(rt: HostRuntime) {
    let mut bytes = FOUR_POINTS;
    bytes[8] = 2;
    bytes[20] = 1;
    assert_eq!(rt; fault_of(rt.alloc(), &bytes), None);
}

#[test]
fn a_broken_rule_of_a_layer_is_named_with_its_place(rt: HostRuntime) {
    let missed = first_unbroken(rt.alloc(), &TWO_LAYERS, &TWO_BROKEN);
    assert!(rt; missed.is_none(), "{missed:?}");
    let missed = first_unbroken(rt.alloc(), &THREE_LAYERS, &THREE_BROKEN);
    assert!(rt; missed.is_none(), "{missed:?}");
}
