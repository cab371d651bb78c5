//! The answers of one caller.
ghost use Rattle.std.specs.Prelude.{◌≡◌, ◌*◌, ◌<◌, ◌≤◌, [], length, IfOk, slice_index_or};
ghost use Rattle.ann_defs.specs.declared.limits.TheConstants.{MAX_ANSWERS, MAX_POINTS};
ghost use Rattle.live_session.specs.Rows.{pushed};

use ann_defs::{MAX_ANSWERS, MAX_POINTS, Near};
use ann_shelf::NoMemory;
use std::alloc::Global;
use std::marker::Model;

// An answer: its batch, and where its ids begin and end among those of all answers.
#[derive(Clone, Copy, Drop)]
pub(crate) struct Mark {
    pub batch: u32,
    pub from: u32,
    pub to: u32,
}

/// Answers in their order, each with its batch, and room for those to come.
///
/// The ids of all answers stand one after another, 8 bytes each with their distances, and each answer has a mark of 12
/// bytes. All of it is taken once.
#[derive(Drop)]
pub(crate) struct AnswerRow {
    size: u32,
    k: u32,
    marks: Vec<Mark>,
    nears: Vec<Near>,
}

impl Model for AnswerRow {
    ghost use Rattle.std.specs.Prelude.{map, vec_capacity};
    ghost use Rattle.live_session.specs.Rows.{Row, HasRoom, answer_in};

    ghost Value = { Row };

    ghost view = { λ r. record { answers = map (answer_in r.nears.items) r.marks.items; size = r.size; k = r.k } };

    ghost invariant = { λ r. HasRoom r.size r.k r.marks.items r.nears.items (vec_capacity r.marks) (vec_capacity r.nears) };
}

impl AnswerRow {
    /// No answers, and room for `size` of at most `k` ids each.
    pub fn new(alloc: Global, size: u32, k: u32) -> Result<AnswerRow, NoMemory>
        requires size { size ≤ MAX_POINTS }
        requires answers { size * k ≤ MAX_ANSWERS }
        ensures { IfOk result (λ r. r ≡ record { answers = []; size = size; k = k }) }
    {
        let marks = Vec::with_capacity(alloc, size as usize)?;
        let nears = Vec::with_capacity(alloc, size as usize * k as usize)?;
        Ok(AnswerRow {
            size,
            k,
            marks,
            nears,
        })
    }

    /// How many answers there are.
    pub fn len(&self) -> u32
        ensures { result ≡ length self.now.answers }
    {
        self.marks.len() as u32
    }

    /// How many there is room for.
    pub fn size(&self) -> u32
        ensures { result ≡ self.now.size }
    {
        self.size
    }

    /// One answer more.
    pub fn push(&mut self, batch: u32, nears: &[Near])
        requires room { length self.old.answers < self.old.size }
        requires short { length nears.now ≤ self.old.k }
        ensures { self.new ≡ pushed self.old batch nears.now }
    {
        let from = self.nears.len() as u32;
        let to = from + nears.len() as u32;
        let Ok(()) = self.nears.extend_from_slice(nears) else {
            unreachable!()
        };
        let Ok(()) = self.marks.push(Mark { batch, from, to }) else {
            unreachable!()
        };
    }

    /// The batch of answer `i`.
    pub fn batch(&self, i: usize) -> u32
        requires { i < length self.now.answers }
        ensures { result ≡ (slice_index_or self.now.answers i (0, [])).0 }
    {
        self.marks[i].batch
    }

    /// Answer `i`.
    pub fn nears(&self, i: usize) -> &[Near]
        requires { i < length self.now.answers }
        ensures { result.now ≡ (slice_index_or self.now.answers i (0, [])).1 }
    {
        let mark = self.marks[i];
        &self.nears[mark.from as usize..mark.to as usize]
    }
}
