//! How many bytes one call of a fake moves.
ghost use Rattle.std.specs.Prelude.{◌≡◌, ◌≤◌, ◌<◌, Some, None};
ghost use Rattle.ann_shelf.specs.Pieces.{moved};

use std::marker::Model;

/// The most bytes that one call moves, at least one; none where there is no bound.
#[derive(Drop)]
pub(crate) struct Piece {
    most: Option<usize>,
}

impl Model for Piece {
    ghost use Rattle.std.specs.Prelude.{ℕ, Option, IfSome, ◌≤◌};

    ghost Value = { Option ℕ };

    ghost view = { λ p. p.most };

    ghost invariant = { λ p. IfSome p.most (λ most. 1 ≤ most) };
}

impl Piece {
    // No bound.
    pub(crate) fn unbound() -> Piece
        ensures { result ≡ None }
    {
        Piece { most: None }
    }

    // At most this many.
    pub(crate) fn of(most: usize) -> Piece
        requires { 1 ≤ most }
        ensures { result ≡ Some most }
    {
        Piece { most: Some(most) }
    }

    // How many of so many bytes a call moves: at least one where there is one.
    pub(crate) fn moved(&self, count: usize) -> usize
        ensures value { result ≡ moved self.now count }
        ensures bound { result ≤ count }
        ensures some { 0 < count → 0 < result }
    {
        match self.most {
            Some(most) => most.min(count),
            None => count,
        }
    }
}
