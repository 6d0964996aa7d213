//! Lists of moves of scrollers.

ghost use Rattle.std.specs.Prelude.{◌≡◌, [], ◌∷◌, ◌++◌, length, slice_get, OnOk, OnErr, IfOk, IfErr, option_copied};

use page_layers::Move;
use std::alloc::{AllocError, Global};
use std::marker::Model;

/// A list of moves.
pub struct Moves {
    items: Vec<Move>,
}

impl Model for Moves {
    ghost use Rattle.std.specs.Prelude.{List};
    ghost use Rattle.page_layers.specs.declared.moves.Move.{Move};

    ghost Value = { List Move };

    ghost view = { λ m. m.items.items };
}

// Written out, since a derived drop is proved anew, field by field, in each function that lets one go.
impl Drop for Moves {
    fn drop(self) {
        let Moves { items: _ } = self;
    }
}

impl Moves {
    /// The empty list.
    pub fn new(alloc: Global) -> Moves
        ensures { result ≡ [] }
    {
        Moves {
            items: Vec::new(alloc),
        }
    }

    /// Adds a move at the end. If there is no memory for it, the list stays as it is and the move
    /// comes back.
    pub fn push(&mut self, e: Move) -> Result<(), (AllocError, Move)>
        ensures ok { OnOk result (self.new ≡ self.old ++ e ∷ []) }
        ensures err { OnErr result (self.new ≡ self.old) }
        ensures handed_back { IfErr result (λ x. x.1 ≡ e) }
    {
        match self.items.push(e) {
            Ok(()) => Ok(()),
            Err(_) => Err((AllocError, e)),
        }
    }

    /// A copy of the list.
    pub fn copy(&self) -> Result<Moves, AllocError>
        ensures { IfOk result (λ c. c ≡ self.now) }
    {
        Ok(Moves {
            items: self.items.clone()?,
        })
    }

    /// How many moves the list has.
    pub fn len(&self) -> usize
        ensures { result ≡ length self.now }
    {
        self.items.len()
    }

    /// The move at a place; None exactly if `i` is not below the length.
    pub fn at(&self, i: usize) -> Option<&Move>
        ensures { option_copied result ≡ slice_get self.now i }
    {
        self.items.get(i)
    }

    /// The moves, the first of them first.
    pub fn as_slice(&self) -> &[Move]
        ensures { result.now ≡ self.now }
    {
        self.items.as_slice()
    }
}
