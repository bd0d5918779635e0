//! The statuses of arcs.

ghost use Rattle.std.specs.Prelude.{◌≡◌, ◌<◌, ◌≤◌, ◌+◌, ◌^◌, ◌++◌, ◌↔◌, ℕ, Some, None, length, map};
ghost use Rattle.std.specs.Prelude.{List, ◌-◌, replicate, slice_get, set, take, IsTrue, IfOk, OnOk, OnErr};
ghost use Rattle.qs_core.specs.declared.step.Status.{Status as StatusOfArc};
ghost use Rattle.qs_core.specs.declared.step.Status.TheVariants as status;
ghost use Rattle.qs_core.specs.Core.{rest_one};
ghost use Rattle.qs_core.specs.working.Tables.{IsWaiting, IsClaimOf};

use crate::step::Status;
use std::alloc::{AllocError, Global};
use std::marker::Model;

/// The status of each arc, with the arc that each seat has claimed. A seat has at most one claim.
#[derive(Drop)]
pub struct Statuses {
    list: Vec<Status>,
    // The arc that each seat has claimed.
    claims: Vec<Option<u32>>,
    // No arc before this one waits.
    next: u32,
    // How many arcs aren't done.
    left: u32,
    alloc: Global,
}

impl Model for Statuses {
    ghost use Rattle.std.specs.Prelude.{length};
    ghost use Rattle.qs_core.specs.Machines.{StatusTable};
    ghost use Rattle.qs_core.specs.working.Tables.{IsTable};
    ghost use Rattle.qs_core.specs.working.Codes.{table_code};

    ghost Value = { StatusTable };

    ghost coded = { table_code };

    ghost view = { λ s. record { list = s.list.items; seats = length s.claims.items } };

    ghost invariant = { λ s. IsTable s.list.items s.claims.items s.next s.left };
}

impl Statuses {
    /// So many arcs wait, and none of so many seats has a claim.
    pub fn of(alloc: Global, arcs: u32, seats: u32) -> Result<Statuses, AllocError>
        ensures { IfOk result (λ s. s ≡ record { list = replicate arcs status.Waiting; seats = seats }) }
    {
        let list = vec![in alloc; Status::Waiting; arcs as usize]?;
        let claims = vec![in alloc; None; seats as usize]?;
        Ok(Statuses {
            list,
            claims,
            next: 0,
            left: arcs,
            alloc,
        })
    }

    /// The number of seats.
    pub fn seats(&self) -> u32
        ensures { result ≡ self.now.seats }
    {
        self.claims.len() as u32
    }

    /// The status of this arc, where there is one.
    pub fn status(&self, arc: u32) -> Option<Status>
        ensures { result ≡ slice_get self.now.list arc }
    {
        self.list.get(arc as usize).copied()
    }

    /// The arc that this seat has claimed.
    pub fn claim_of(&self, seat: u32) -> Option<u32>
        requires { seat < self.now.seats }
        ensures { IsClaimOf self.now.list seat result }
    {
        self.claims[seat as usize]
    }

    /// An arc that waits. Looking for it passes each arc once.
    pub fn waiting(&mut self) -> Option<u32>
        ensures found { IsWaiting self.old.list result }
        ensures same { self.new ≡ self.old }
    {
        self.next = first_waiting(&self.list, self.next);
        if (self.next as usize) < self.list.len() {
            Some(self.next)
        } else {
            None
        }
    }

    /// Whether all arcs are done.
    pub fn all_done(&self) -> bool
        ensures { IsTrue result ↔ ((m : ℕ) (s : StatusOfArc) → slice_get self.now.list m ≡ Some s → s ≡ status.Done) }
    {
        self.left == 0
    }

    /// What the seat has claimed is done. Whether it had a claim.
    pub fn rest(&mut self, seat: u32) -> bool
        requires { seat < self.old.seats }
        ensures list { self.new ≡ record { list = map (rest_one seat) self.old.list; seats = self.old.seats } }
        ensures had { IsTrue result ↔ ((m k : ℕ) × (slice_get self.old.list m ≡ Some (status.Claimed seat k))) }
    {
        let Some(arc) = self.claims[seat as usize] else {
            return false;
        };
        self.list[arc as usize] = Status::Done;
        self.claims[seat as usize] = None;
        self.left -= 1;
        true
    }

    /// The seat, which has no claim, claims an arc that waits.
    pub fn claim(&mut self, seat: u32, arc: u32)
        requires seat { seat < self.old.seats }
        requires waits { slice_get self.old.list arc ≡ Some status.Waiting }
        requires free { IsClaimOf self.old.list seat None }
        ensures { self.new ≡ record { list = set self.old.list arc (status.Claimed seat 0); seats = self.old.seats } }
    {
        self.list[arc as usize] = Status::Claimed { seat, published: 0 };
        self.claims[seat as usize] = Some(arc);
    }

    /// So many firings of the arc that the seat has claimed are published.
    pub fn publish(&mut self, seat: u32, arc: u32, published: u32)
        requires { IsClaimOf self.old.list seat (Some arc) }
        ensures { self.new ≡ record {
          list = set self.old.list arc (status.Claimed seat published);
          seats = self.old.seats;
        } }
    {
        self.list[arc as usize] = Status::Claimed { seat, published };
    }

    /// So many arcs more, which wait.
    pub fn add(&mut self, arcs: u32) -> Result<(), AllocError>
        requires { length self.old.list + arcs < 2 ^ 32 }
        ensures ok { OnOk result (self.new ≡ record {
          list = self.old.list ++ replicate arcs status.Waiting;
          seats = self.old.seats;
        }) }
        ensures err { OnErr result (self.new ≡ self.old) }
    {
        let mut more = vec![in self.alloc; Status::Waiting; arcs as usize]?;
        self.list.append(&mut more)?;
        self.left += arcs;
        Ok(())
    }

    /// So many arcs less, the last ones, which wait. Takes no memory.
    pub fn remove(&mut self, arcs: u32)
        requires { (kept : List StatusOfArc) × (self.old.list ≡ kept ++ replicate arcs status.Waiting) }
        ensures { self.new ≡ record {
          list = take (length self.old.list - arcs) self.old.list;
          seats = self.old.seats;
        } }
    {
        self.list.truncate(self.list.len() - arcs as usize);
        self.next = self.next.min(self.list.len() as u32);
        self.left -= arcs;
    }
}

// The first arc from this one on that waits, or else the number of arcs.
fn first_waiting(list: &[Status], from: u32) -> u32
    requires few { length list.now < 2 ^ 32 }
    requires within { from ≤ length list.now }
    ensures within { result ≤ length list.now }
    ensures passed { (m : ℕ) → slice_get list.now m ≡ Some status.Waiting → from ≤ m → result ≤ m }
    ensures waits { result < length list.now → slice_get list.now result ≡ Some status.Waiting }
{
    let mut arc = from;
    while (arc as usize) < list.len() {
        if list[arc as usize] == Status::Waiting {
            return arc;
        }
        arc += 1;
    }
    arc
}
