//! A session: its seat, whose view is what it has seen and made.
ghost use Rattle.std.specs.Prelude.{◌≡◌, ◌∷◌, [], ◌<◌, length, remove, MatchOption};
ghost use mathlib.Core.List.{IsPrefix};
ghost use Rattle.span_board.specs.Rule.{Sees, IsBegunAt, HasNotBegun, newcomer};
ghost use Rattle.span_board.specs.declared.board.Role.TheVariants.{Client};

use crate::begun::{Begun, place_of};
use crate::board::{Board, DbSeat, Look, Naming};
use std::alloc::Global;
use std::marker::{Model, PhantomData};

/// A session of a database: what it has seen of the log, and what it has begun.
#[derive(Drop)]
pub struct Session<J: Naming> {
    /// The number that its transactions have as their owner's.
    pub owner: u64,
    pub seat: DbSeat,
    pub begun: Vec<Begun>,
    pub(crate) of: PhantomData<J>,
}

impl<J: Naming> Model for Session<J> {
    ghost use Rattle.std.specs.Prelude.{◌≡◌, [], ◌∷◌};
    ghost use Rattle.span_board.specs.Rule.{SessionHistory, seen_of, mine_of};
    ghost use Rattle.span_board.specs.declared.board.Role.TheVariants.{Client};

    ghost Value = { SessionHistory };

    ghost view = { λ s. record {
      owner = s.owner;
      seen = seen_of s.seat.me.0;
      mine = mine_of s.seat.me.0;
      begun = s.begun.items;
    } };

    ghost invariant = { λ s. (s.seat.table_id ≡ J.table)
        × (s.seat.me ≡ (Client s.owner (seen_of s.seat.me.0) (mine_of s.seat.me.0) ∷ [], [])) };
}

impl<J: Naming> Session<J> {
    /// The session of this owner, which has seen and made nothing, as its seat says.
    pub fn new(alloc: Global, owner: u64, seat: DbSeat) -> Session<J>
        requires at { seat.table_id ≡ J.table }
        requires client { seat.me ≡ (Client owner [] [] ∷ [], []) }
        ensures { result ≡ newcomer owner }
    {
        Session {
            owner,
            seat,
            begun: Vec::new(alloc),
            of: PhantomData,
        }
    }

    /// How many commits are published. It waits for nobody.
    pub fn look(&mut self, board: &Board<J>) -> u64
        ensures count { result ≡ length self.new.seen }
        ensures seen { Sees self.old self.new }
        ensures begun { self.new.begun ≡ self.old.begun }
    {
        board.table.shared.load::<Look>(&mut self.seat, 0)
    }

    pub fn owner(&self) -> u64
        ensures { result ≡ self.now.owner }
    {
        self.owner
    }

    /// The place of what the session has begun under the number.
    pub fn begun_at(&self, number: u64) -> Option<usize>
        ensures { MatchOption result (HasNotBegun self.now number) (IsBegunAt self.now number) }
    {
        place_of(self.begun.as_slice(), number)
    }

    /// Forgets what was begun at a place.
    pub fn forget(&mut self, place: usize)
        requires { place < length self.old.begun }
        ensures { self.new ≡ record self.old { begun = remove self.old.begun place } }
    {
        let _ = self.begun.remove(place);
    }
}
