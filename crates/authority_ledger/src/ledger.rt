//! What a controller keeps of the numbers of one train's authorities.
ghost use Rattle.std.specs.Prelude.{ℕ, ◌≡◌, ◌≤◌, ◌<◌, ◌+◌, ◌^◌, []};
ghost use Rattle.authority_ledger.specs.Ledger.{IsLedger, LeavesEnd, first_ledger, restored, pair_of, next_number, longer, shorter, answer_of, after_answer, shifted};
ghost use Rattle.authority_ledger.specs.Numbers.{Longer, Shorter, Answer, Shift, Tells};
ghost use Rattle.authority_ledger.specs.Keeps.{Keeps};

use thiserror::Error;

/// An authority that ends before the longest does, and that is not answered.
#[derive(Clone, Copy)]
pub struct Shrink {
    /// Its number.
    pub number: u32,
    /// Where it ends on the train's way, in mm.
    pub end: u32,
}

/// The numbers of one train's authorities. They are numbered from 1. At most one shrink is unanswered, and until it is
/// answered nothing is issued. Beside it its holder keeps an end: of a longer authority once it is issued, of a shrink once
/// it is taken, else the same. That is the greatest end which may still count.
#[derive(Clone, Copy)]
pub struct Ledger {
    /// The last number issued.
    last: u32,
    /// The greatest number answered; 0 before the first answer.
    answered: u32,
    /// The shrink that is not answered.
    pending: Option<Shrink>,
}

/// Nothing is issued, as the shrink of this number is not answered.
#[derive(Clone, Copy, Debug, Error)]
#[error("the shrink of number {0} is not answered")]
pub struct Pending(pub u32);

/// What an answer comes to.
#[derive(Clone, Copy)]
pub enum Answered {
    /// It says nothing new: a number that is no greater was answered, or its number was not issued.
    Old,
    /// It counts, and is not the unanswered shrink's.
    Noted,
    /// The unanswered shrink, which ends there, was taken.
    Shrunk(u32),
    /// The unanswered shrink was refused, so the end before it stays.
    Stays,
}

impl Ledger {
    /// The ledger of a train whose first authority was issued, with number 1, and is not answered.
    pub fn first() -> Ledger
        ensures exact { result ≡ first_ledger }
        ensures fits { IsLedger result }
        ensures tells { (end : ℕ) → Tells result end end [] }
    {
        Ledger {
            last: 1,
            answered: 0,
            pending: None,
        }
    }

    /// The ledger that has these numbers; of the shrink its number and its end.
    pub fn restore(last: u32, answered: u32, pending: Option<(u32, u32)>) -> Ledger
        requires { IsLedger (restored last answered pending) }
        ensures exact { result ≡ restored last answered pending }
        ensures fits { IsLedger result }
    {
        let pending = match pending {
            Some((number, end)) => Some(Shrink { number, end }),
            None => None,
        };
        Ledger {
            last,
            answered,
            pending,
        }
    }

    /// Issues an authority that does not end before the longest does, and tells its number.
    #[tactic(auto, using(crate::proofs::Told::keeps))]
    pub fn issue_longer(&mut self) -> Result<u32, Pending>
        requires fits { IsLedger self.old }
        requires room { self.old.last + 1 < 2 ^ 32 }
        ensures exact { result ≡ next_number self.old }
        ensures after { self.new ≡ longer self.old }
        ensures fits { IsLedger self.new }
        ensures keeps { (end : ℕ) → Keeps (Longer end) self.old self.new }
    {
        if let Some(shrink) = self.pending {
            return Err(Pending(shrink.number));
        }
        self.last += 1;
        Ok(self.last)
    }

    /// Issues an authority that ends before the longest does, at a place in mm, and tells its number.
    #[tactic(auto, using(crate::proofs::Told::keeps))]
    pub fn issue_shorter(&mut self, end: u32) -> Result<u32, Pending>
        requires fits { IsLedger self.old }
        requires room { self.old.last + 1 < 2 ^ 32 }
        ensures exact { result ≡ next_number self.old }
        ensures after { self.new ≡ shorter end self.old }
        ensures fits { IsLedger self.new }
        ensures keeps { Keeps (Shorter end) self.old self.new }
    {
        let number = self.issue_longer()?;
        self.pending = Some(Shrink { number, end });
        Ok(number)
    }

    /// Takes the answer to a number: whether the train took that authority.
    #[tactic(auto, using(crate::proofs::Told::keeps))]
    pub fn answer(&mut self, number: u32, taken: bool) -> Answered
        requires { IsLedger self.old }
        ensures exact { result ≡ answer_of number taken self.old }
        ensures after { self.new ≡ after_answer (answer_of number taken self.old) number self.old }
        ensures fits { IsLedger self.new }
        ensures keeps { Keeps (Answer number taken) self.old self.new }
    {
        if number <= self.answered || number > self.last {
            return Answered::Old;
        }
        self.answered = number;
        match self.pending {
            Some(shrink) if shrink.number == number => {
                self.pending = None;
                if taken {
                    Answered::Shrunk(shrink.end)
                } else {
                    Answered::Stays
                }
            }
            _ => Answered::Noted,
        }
    }

    /// The first mm of the train's way are given up, so that places on it are less by as much.
    #[tactic(auto, using(crate::proofs::Told::keeps))]
    pub fn shift(&mut self, mm: u32)
        requires fits { IsLedger self.old }
        requires leaves { LeavesEnd mm self.old.pending }
        ensures after { self.new ≡ shifted mm self.old }
        ensures fits { IsLedger self.new }
        ensures keeps { Keeps (Shift mm) self.old self.new }
    {
        if let Some(shrink) = &mut self.pending {
            shrink.end -= mm;
        }
    }

    /// The last number issued.
    pub fn last(&self) -> u32
        ensures { result ≡ self.now.last }
    {
        self.last
    }

    /// The greatest number answered; 0 before the first answer.
    pub fn answered(&self) -> u32
        ensures { result ≡ self.now.answered }
    {
        self.answered
    }

    /// The shrink that is not answered: its number, and where it ends.
    pub fn pending(&self) -> Option<(u32, u32)>
        ensures { result ≡ pair_of self.now.pending }
    {
        match self.pending {
            Some(shrink) => Some((shrink.number, shrink.end)),
            None => None,
        }
    }
}
