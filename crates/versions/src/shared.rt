//! What readers take: the number of a batch and the graph after it.
use graph_rows::FlatGraph;
use left_right::Absorb;
use std::alloc::AllocError;
use vamana_build::{BatchChange, Plan};

/// The shared value. The plan says which graphs these are.
#[derive(Drop)]
pub struct Shared<'p> {
    pub plan: &'p Plan<'p>,
    pub batch: u32,
    pub graph: FlatGraph,
}

impl<'p> Absorb<BatchChange> for Shared<'p> {
    ghost use Rattle.batch_insert.specs.Changes.{put_all};

    type State = Shared<'p>;

    ghost state = { λ s. s };

    ghost applied = { λ s c. record s { batch = c.batch; graph = put_all s.graph c.rows } };

    ghost never_fails = { Unit {0} };

    fn absorb_first(
        &mut self,
        operation: &BatchChange,
        _other: &Shared<'p>,
    ) -> Result<(), AllocError> {
        operation.put_into(&mut self.graph);
        self.batch = operation.batch();
        Ok(())
    }
}
