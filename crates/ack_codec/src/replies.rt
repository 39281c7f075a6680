//! The replies of an ack.

ghost use Rattle.std.specs.Prelude.{◌≡◌, ◌==◌, ◌≤◌, ◌^◌, ◌<◌, ◌↔◌, [], ◌∷◌, ◌++◌, length, IsSome, IfSome, map, take};
ghost use Rattle.std.proofs.Common.{rules};
ghost use Rattle.std.specs.Iterator.Runs.{EveryRun, ItemsMapTo};
ghost use Rattle.std.specs.Slice.Iter.{iter_rest, iter_steps};
ghost use Rattle.hd_base.specs.declared.states.Status.{Status};
ghost use Rattle.std.specs.Cmp.Lexicographic.{pointwise};
ghost use Rattle.std.specs.Cmp.Rules.{comparing};
ghost use Rattle.std.specs.Ordering.{on};
ghost use Rattle.ack_codec.specs.Replies.{status_code};

use hd_base::Status;
use std::alloc::AllocError;
use std::fmt::{Debug, Formatter, Write};
use std::marker::Model;
use std::{fmt, slice};

/// The most replies that an ack has.
pub const MAX_REPLIES: usize = 16;

/// At most 16 statuses, seen as their list: the replies of a pipeline's members, the nearest
/// first. Takes no memory.
#[derive(Drop)]
pub struct Replies {
    statuses: [Status; MAX_REPLIES],
    count: usize,
}

impl Model for Replies {
    ghost use Rattle.std.specs.Prelude.{◌≤◌, List, take};
    ghost use Rattle.hd_base.specs.declared.states.Status.{Status};

    ghost Value = { List Status };

    ghost view = { λ r. take r.count r.statuses };

    ghost invariant = { λ r. r.count ≤ 16 };
}

impl Replies {
    /// These replies, `None` exactly where there are over 16.
    pub fn new(statuses: &[Status]) -> Option<Replies>
        ensures made { IsSome result ↔ (length statuses.now ≤ MAX_REPLIES) }
        ensures value { IfSome result (λ replies. replies ≡ statuses.now) }
    {
        if statuses.len() > MAX_REPLIES {
            return None;
        }
        let mut kept = [Status::Success; MAX_REPLIES];
        kept[..statuses.len()].copy_from_slice(statuses);
        Some(Replies {
            statuses: kept,
            count: statuses.len(),
        })
    }

    /// No reply.
    pub fn empty() -> Replies
        ensures { result ≡ [] }
    {
        Replies {
            statuses: [Status::Success; MAX_REPLIES],
            count: 0,
        }
    }

    /// One reply more, behind the others, of which there are fewer than 16 (`len` tells).
    pub fn push(&mut self, status: Status)
        requires { length self.old < MAX_REPLIES }
        ensures { self.new ≡ self.old ++ status ∷ [] }
    {
        self.statuses[self.count] = status;
        self.count += 1;
    }

    /// The replies in order.
    pub fn as_slice(&self) -> &[Status]
        ensures value { result.now ≡ self.now }
        ensures within_limit { length result.now ≤ MAX_REPLIES }
    {
        &self.statuses[..self.count]
    }

    /// How many replies there are, at most 16.
    pub fn len(&self) -> usize
        ensures value { result ≡ length self.now }
        ensures within_limit { result ≤ MAX_REPLIES }
    {
        self.as_slice().len()
    }

    /// Whether there is no reply.
    pub fn is_empty(&self) -> bool
        ensures { result ≡ (length self.now == 0) }
    {
        self.as_slice().is_empty()
    }

    /// The same replies once more.
    pub fn duplicate(&self) -> Replies
        ensures { result ≡ self.now }
    {
        Replies {
            statuses: self.statuses,
            count: self.count,
        }
    }
}

impl Clone for Replies {
    ghost is_clone = { λ replies copy. copy ≡ replies };

    ghost is_infallible = { λ _. Unit {0} };

    fn clone(&self) -> Result<Replies, AllocError> {
        Ok(self.duplicate())
    }
}

impl<'a> IntoIterator for &'a Replies {
    type Item = &'a Status;

    type IntoIter = slice::Iter<'a, Status>;

    ghost into_iter_gives = { λ r it. (iter_rest it ≡ r.now) × (length (iter_rest it) < 2 ^ 64)
        × EveryRun (iter_steps {A = Status}) (λ p. ItemsMapTo p (λ x. x.now) (iter_rest p.from)) };

    fn into_iter(self) -> slice::Iter<'a, Status> {
        self.as_slice().iter()
    }
}

impl PartialEq for Replies {
    ghost eq = { on (map status_code) (pointwise ◌==◌) };

    ghost laws = { Prim.search (comparing, rules) };

    fn eq(&self, other: &Replies) -> bool {
        let (own, others) = (self.as_slice(), other.as_slice());
        codes(own)[..own.len()] == codes(others)[..others.len()]
    }
}

impl Eq for Replies {
    ghost laws = { Prim.search (comparing, rules) };
}

impl Debug for Replies {
    fn fmt<W: Write>(&self, f: &mut Formatter<W>) -> fmt::Result {
        Debug::fmt(&self.as_slice(), f)
    }
}

/// A number for each status, by which replies are compared.
fn code(status: Status) -> u64
    ensures { result ≡ status_code status }
{
    match status {
        Status::Other(number) => u64::from(number) + 8,
        _ => u64::from(status.number()),
    }
}

/// The numbers of these statuses, and zeros behind them.
fn codes(statuses: &[Status]) -> [u64; MAX_REPLIES]
    requires { length statuses.now ≤ MAX_REPLIES }
    ensures { take (length statuses.now) result ≡ map status_code statuses.now }
{
    let mut codes = [0; MAX_REPLIES];
    for (i, status) in statuses.iter().enumerate() {
        codes[i] = code(*status);
    }
    codes
}
