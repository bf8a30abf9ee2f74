//! How many requests were accepted.
ghost use Rattle.std.specs.Prelude.{◌≡◌, ◌+◌, ◌<◌, ◌≤◌};
ghost use Rattle.ada_hall.specs.Halls.{gained};

use ada_replay::Answer;
use std::marker::Model;
use std::sync::ledger::{Book, Ledger, Share};

/// The total of accepted requests, of which those who ask hold shares. Contracts see the total.
#[derive(Drop)]
pub struct Tally<L: Ledger> {
    total: u32,
    /// The book of the shares. It takes no bytes.
    book: Book<L>,
}

impl<L: Ledger> Model for Tally<L> {
    ghost use Rattle.std.specs.Prelude.{◌≡◌, ℕ};

    ghost Value = { ℕ };

    ghost view = { λ t. t.total };

    ghost invariant = { λ t. t.book.total ≡ t.total };
}

impl<L: Ledger> Tally<L> {
    /// A total of 0, in which no share counts yet.
    pub fn new(book: Book<L>) -> Tally<L>
        requires { book.total ≡ 0 }
        ensures { result ≡ 0 }
    {
        Tally { total: 0, book }
    }

    /// The total.
    pub fn total(&self) -> u32
        ensures { result ≡ self.now }
    {
        self.total
    }

    /// Adds one to the total, and to a share.
    pub fn add(&mut self, share: &mut Share<L>)
        requires parts { 0 < share.old.parts }
        requires fits { self.old < 65536 }
        ensures total { self.new ≡ self.old + 1 }
        ensures amount { share.new.amount ≡ share.old.amount + 1 }
        ensures parts { share.new.parts ≡ share.old.parts }
    {
        self.total += 1;
        self.book.add(share, 1);
    }

    /// Adds one to the total, and to a share, where the answer is that a request was accepted.
    pub fn count(&mut self, share: &mut Share<L>, answer: Answer)
        requires parts { 0 < share.old.parts }
        requires fits { self.old + gained answer ≤ 65536 }
        ensures total { self.new ≡ self.old + gained answer }
        ensures amount { share.new.amount ≡ share.old.amount + gained answer }
        ensures parts { share.new.parts ≡ share.old.parts }
    {
        if let Answer::Group { .. } = answer {
            self.add(share);
        }
    }

    /// Shows that the whole share has the total for its amount.
    pub fn audit(&mut self, whole: &mut Share<L>)
        requires { whole.old.parts ≡ L.parts }
        ensures amount { whole.old.amount ≡ self.old }
        ensures total { self.new ≡ self.old }
        ensures share { (whole.new.amount ≡ whole.old.amount)
            × (whole.new.parts ≡ whole.old.parts) }
    {
        self.book.audit(whole);
    }
}
