//! Steps, counted at no cost.
ghost use Rattle.std.specs.Prelude.{◌≡◌, ◌+◌, ◌<◌};
ghost use Rattle.span_arena.specs.Counts.{Count};

use std::marker::Model;
use std::sync::ledger::{Blank, Book, Ledger, Share};

/// How many keys were compared and how many cells written. It takes no bytes.
#[derive(Drop)]
pub struct Steps<C: Ledger, W: Ledger> {
    compared: Book<C>,
    compared_share: Share<C>,
    written: Book<W>,
    written_share: Share<W>,
}

impl<C: Ledger, W: Ledger> Model for Steps<C, W> {
    ghost use Rattle.std.specs.Prelude.{◌<◌};
    ghost use Rattle.span_arena.specs.Counts.{Count};

    ghost Value = { Count };

    ghost view = { λ s. record { compared = s.compared.total; written = s.written.total } };

    ghost invariant = { λ s. (0 < s.compared_share.parts) × (0 < s.written_share.parts) };
}

impl<C: Ledger, W: Ledger> Steps<C, W> {
    /// No step yet, on two new ledgers.
    pub fn new(compared: Blank, written: Blank) -> Steps<C, W>
        requires compared_name { compared.name ≡ C.name }
        requires compared_parts { compared.parts ≡ C.parts }
        requires compared_some { 0 < compared.parts }
        requires written_name { written.name ≡ W.name }
        requires written_parts { written.parts ≡ W.parts }
        requires written_some { 0 < written.parts }
        ensures { result ≡ record { compared = 0; written = 0 } }
    {
        let (compared, compared_share) = compared.open::<C>();
        let (written, written_share) = written.open::<W>();
        Steps {
            compared,
            compared_share,
            written,
            written_share,
        }
    }

    /// One key more was compared.
    pub fn compare(&mut self)
        ensures { self.new ≡ record { compared = self.old.compared + 1; written = self.old.written } }
    {
        self.compared.add(&mut self.compared_share, 1);
    }

    /// One cell more was written.
    pub fn write(&mut self)
        ensures { self.new ≡ record { compared = self.old.compared; written = self.old.written + 1 } }
    {
        self.written.add(&mut self.written_share, 1);
    }
}
