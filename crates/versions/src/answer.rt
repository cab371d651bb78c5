//! Room for an answer.
ghost use Rattle.std.specs.Prelude.{◌≡◌, ◌≤◌, [], length, take, vec_capacity, IfOk};
ghost use Rattle.ann_defs.specs.declared.limits.TheConstants.{MAX_BEAM};

use ann_defs::{MAX_BEAM, Near};
use ann_shelf::NoMemory;
use std::alloc::Global;
use std::marker::Model;

/// An answer: ids with their squared distances to the query, nearest first. Its room outlives each query.
#[derive(Drop)]
pub struct Answer {
    pairs: Vec<Near>,
}

impl Model for Answer {
    ghost use Rattle.std.specs.Prelude.{vec_capacity};
    ghost use Rattle.versions.specs.Found.{Found};

    ghost Value = { Found };

    ghost view = { λ a. record { pairs = a.pairs.items; room = vec_capacity a.pairs } };
}

impl Answer {
    /// An empty answer with room for `k` ids, 8 bytes each. A failure leaves nothing.
    pub fn with_room(alloc: Global, k: u32) -> Result<Answer, NoMemory>
        requires { (1 ≤ k) × (k ≤ MAX_BEAM) }
        ensures { IfOk result (λ a. (a.pairs ≡ []) × (k ≤ a.room)) }
    {
        let pairs = Vec::with_capacity(alloc, k as usize)?;
        Ok(Answer { pairs })
    }

    /// The last answer.
    pub fn pairs(&self) -> &[Near]
        ensures { result.now ≡ self.now.pairs }
    {
        self.pairs.as_slice()
    }

    // Forgets the last answer.
    pub(crate) fn clear(&mut self)
        ensures { self.new ≡ record self.old { pairs = [] } }
    {
        self.pairs.clear();
    }

    // The answer becomes the first k of these. It takes no memory.
    pub(crate) fn keep_first(&mut self, nears: &[Near], k: u32)
        requires { k ≤ self.old.room }
        ensures { self.new ≡ record self.old { pairs = take k nears.now } }
    {
        self.pairs.clear();
        push_all(&mut self.pairs, &nears[..nears.len().min(k as usize)]);
    }
}

// Adds all of these to an empty vector that has room for them.
fn push_all(pairs: &mut Vec<Near>, nears: &[Near])
    requires empty { pairs.old.items ≡ [] }
    requires room { length nears.now ≤ vec_capacity pairs.old }
    ensures items { pairs.new.items ≡ nears.now }
    ensures room { vec_capacity pairs.new ≡ vec_capacity pairs.old }
{
    for near in nears {
        pairs.push_reserved(*near);
    }
}
