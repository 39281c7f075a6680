//! Roads: the connections among nodes and clients.

ghost use Rattle.std.specs.Prelude.{◌≡◌, ℕ, ◌+◌, ◌<◌, ◌≤◌, ◌||◌, ◌&&◌, ◌==◌, ◌↔◌, Bool, true, false, List, [], slice_get, Option, Some, None, option_map, option_and_then, IfSome, IsNone, MatchOption, IfOk, OnOk, OnErr};
ghost use Rattle.hd_base.specs.Faults.{CarriesFaults, FaultSchedule, FollowsSchedule, KeepsSchedule};
ghost use Rattle.hd_base.specs.Channels.{Carried, nothing_carried, gathered, Plain, with_listening, with_dial, with_accept, empty_channel, standing_of};
ghost use Rattle.hd_base.specs.RoadCauses.{RoadCause, DialCause, OnlyMemory};
ghost use Rattle.hd_base.specs.Ends.{IsFresh, IsObservable, FailBy, has_failed, KeepsEnd, CarriesOf, FlushesAll, CarriesFlushed, Exchanges, TakesNext, Flushes, KeepsConnections, IsKnown};
ghost use Rattle.hd_base.specs.declared.ends.Standing.TheVariants as standing;

use crate::ends::{Conn, RoadError, Standing};
use crate::links::{LinkIn, LinkOut};
use crate::numbers::{ConnId, NodeId};
use std::alloc::Global;

/// The port of node 0; the others' follow.
pub const FIRST_PORT: u16 = 9866;

/// How many nodes there may be.
pub const MAX_NODES: u32 = 16;

/// What connections are made on. Their meaning, where the implementation shows it, is the bytes
/// carried by connection and direction: of the pieces that were exchanged or brought back, in the
/// order sent, lost ones among them. Roads over plain memory also show what they hold: the ports
/// that are listened on, the dials that wait, and what stands on each channel; other roads' links
/// carry by themselves. Of ends that roads over plain memory give, what they hold and have sent is
/// observable.
pub trait Roads: Sized + Drop {
    type Inward: LinkIn + Send;

    type Outward: LinkOut + Send;

    ghost carried: { Self → Option Carried };

    ghost plain: { Self → Option Plain };

    // Whether an end of a connection that was brought back, or gathered with a share, had failed.
    ghost risen: { Self → ℕ → Bool };

    ghost faults: { Self → ℕ };

    ghost schedule: { Self → Option FaultSchedule };

    /// Other roads over the same network, which have carried nothing. From then on the queues of
    /// memory roads stand behind locks. No connection was made before, where observable.
    fn share(&mut self, alloc: Global) -> Result<Self, RoadError>
        requires { IfSome (plain self.old) (λ p. p.dialled ≡ 0) }
        ensures nothing { IfOk result (λ s. carried s ≡ option_map (λ _. nothing_carried) (carried self.old)) }
        ensures no_faults { IfOk result (λ s. faults s ≡ 0) }
        ensures none_risen { IfOk result (λ s. (c : ℕ) → risen s c ≡ false) }
        ensures hidden { IfOk result (λ s. (plain s ≡ None) × (plain self.new ≡ None)) }
        ensures carried { carried self.new ≡ carried self.old }
        ensures risen { risen self.new ≡ risen self.old }
        ensures err { OnErr result (plain self.new ≡ plain self.old) }
        ensures cause { RoadCause (faults self.old) (faults self.new) result }
        ensures schedule { FollowsSchedule
            (schedule self.old) (schedule self.new) (faults self.old) (faults self.new) result };

    /// Listens for a node, whose number is below 16, and answers its port: 9866 and the node's
    /// number.
    fn listen(&mut self, alloc: Global, node: NodeId) -> Result<u16, RoadError>
        requires { node.0 < MAX_NODES }
        ensures port { IfOk result (λ port. port ≡ FIRST_PORT + node.0) }
        ensures plain { OnOk result (plain self.new
            ≡ option_map (λ p. with_listening p (FIRST_PORT + node.0) true) (plain self.old)) }
        ensures carried { carried self.new ≡ carried self.old }
        ensures risen { risen self.new ≡ risen self.old }
        ensures err { OnErr result (plain self.new ≡ plain self.old) }
        ensures cause { RoadCause (faults self.old) (faults self.new) result }
        ensures schedule { FollowsSchedule
            (schedule self.old) (schedule self.new) (faults self.old) (faults self.new) result };

    /// Dials a port. `NotListening` comes exactly where nobody listens there, where observable; the
    /// dial then takes no number. The end given is the upper one, and has sent nothing. Over plain
    /// memory connections are numbered from 0 in the order of the answered dials.
    fn dial(
        &mut self,
        alloc: Global,
        port: u16,
    ) -> Result<Conn<Self::Inward, Self::Outward>, RoadError>
        ensures upper { IfOk result (λ c. c.lower ≡ false) }
        ensures number { IfOk result (λ c. IfSome (plain self.old) (λ p. c.id.0 ≡ p.dialled)) }
        ensures fresh { IfOk result (λ c. IsFresh Self.Inward.LinkIn Self.Outward.LinkOut c) }
        ensures observable { IfOk result (λ c. IfSome (plain self.old) (λ _.
            IsObservable Self.Inward.LinkIn Self.Outward.LinkOut c)) }
        ensures schedules { IfOk result (λ c.
            FailBy Self.Inward.LinkIn Self.Outward.LinkOut c (schedule self.new)) }
        ensures unused { IfOk result (λ c. IfSome (carried self.old) (λ k. (d : Bool) → k c.id.0 d ≡ [])) }
        ensures empty { IfOk result (λ c. IfSome (plain self.old) (λ p.
            (d : Bool) → p.channels c.id.0 d ≡ empty_channel)) }
        ensures plain { OnOk result (plain self.new ≡ option_map (λ p. with_dial p port) (plain self.old)) }
        ensures carried { carried self.new ≡ carried self.old }
        ensures risen { risen self.new ≡ risen self.old }
        ensures err { OnErr result (plain self.new ≡ plain self.old) }
        ensures cause { DialCause (plain self.old) port (faults self.old) (faults self.new) result }
        ensures schedule { FollowsSchedule
            (schedule self.old) (schedule self.new) (faults self.old) (faults self.new) result };

    /// Gives the lower end of the oldest dial that waits at the port. Over plain memory `None`
    /// comes exactly where none waits; other roads wait, and answer `None` once the port was hung
    /// up.
    fn accept(
        &mut self,
        alloc: Global,
        port: u16,
    ) -> Result<Option<Conn<Self::Inward, Self::Outward>>, RoadError>
        ensures none { IfOk result (λ found. IfSome (plain self.old) (λ p.
            IsNone found ↔ (p.waiting port ≡ []))) }
        ensures lower { IfOk result (λ found. IfSome found (λ c. c.lower ≡ true)) }
        ensures number { IfOk result (λ found. IfSome found (λ c. IfSome (plain self.old) (λ p.
            slice_get (p.waiting port) 0 ≡ Some c.id.0))) }
        ensures known { IfOk result (λ found. IfSome found (λ c. IsKnown (plain self.old) c.id.0)) }
        ensures fresh { IfOk result (λ found. IfSome found (λ c.
            IsFresh Self.Inward.LinkIn Self.Outward.LinkOut c)) }
        ensures observable { IfOk result (λ found. IfSome found (λ c. IfSome (plain self.old) (λ _.
            IsObservable Self.Inward.LinkIn Self.Outward.LinkOut c))) }
        ensures schedules { IfOk result (λ found. IfSome found (λ c.
            FailBy Self.Inward.LinkIn Self.Outward.LinkOut c (schedule self.new))) }
        ensures plain { IfOk result (λ found. MatchOption found
            (plain self.new ≡ plain self.old)
            (λ _. plain self.new ≡ option_map (λ p. with_accept p port) (plain self.old))) }
        ensures carried { carried self.new ≡ carried self.old }
        ensures risen { risen self.new ≡ risen self.old }
        ensures err { OnErr result (plain self.new ≡ plain self.old) }
        ensures cause { RoadCause (faults self.old) (faults self.new) result }
        ensures schedule { FollowsSchedule
            (schedule self.old) (schedule self.new) (faults self.old) (faults self.new) result };

    /// Nobody listens on the port any more. Dials that wait there stay.
    fn hang_up(&mut self, port: u16)
        ensures plain { plain self.new ≡ option_map (λ p. with_listening p port false) (plain self.old) }
        ensures carried { carried self.new ≡ carried self.old }
        ensures risen { risen self.new ≡ risen self.old }
        ensures faults { faults self.old ≤ faults self.new }
        ensures schedule { KeepsSchedule (schedule self.old) (schedule self.new) (faults self.old) (faults self.new) };

    /// What stands next on a connection's direction, over plain memory; `Nothing` where the links
    /// carry by themselves.
    fn standing(&mut self, conn: ConnId, down: bool) -> Standing
        ensures next { MatchOption (plain self.old)
            (result ≡ standing.Nothing)
            (λ p. result ≡ standing_of (p.channels conn.0 down)) }
        ensures plain { plain self.new ≡ plain self.old }
        ensures carried { carried self.new ≡ carried self.old }
        ensures risen { risen self.new ≡ risen self.old }
        ensures faults { faults self.old ≤ faults self.new }
        ensures schedule { KeepsSchedule (schedule self.old) (schedule self.new) (faults self.old) (faults self.new) };

    /// Flushes the pieces that were sent on this end since its last exchange, and a shut, to roads
    /// over plain memory; with `take` the inward half then gets the next piece that the other end
    /// sent, or the end, where it holds nothing. Over links that carry by themselves it does
    /// nothing. The end is one that these roads gave, where observable. After an error nothing has
    /// changed.
    fn exchange(
        &mut self,
        alloc: Global,
        end: &mut Conn<Self::Inward, Self::Outward>,
        take: bool,
    ) -> Result<(), RoadError>
        requires { IsKnown (plain self.old) end.old.id.0 }
        ensures flushed { OnOk result (FlushesAll Self.Outward.LinkOut end.old end.new (plain self.old)) }
        ensures carried { OnOk result (CarriesFlushed
            Self.Outward.LinkOut end.old (plain self.old) (carried self.old) (carried self.new)) }
        ensures plain { OnOk result (Exchanges
            Self.Inward.LinkIn Self.Outward.LinkOut end.old take (plain self.old) (plain self.new)) }
        ensures taken { OnOk result (TakesNext
            Self.Inward.LinkIn Self.Outward.LinkOut end.old end.new take (plain self.old)) }
        ensures untaken { take ≡ false → Self.Inward.held end.new.inward ≡ Self.Inward.held end.old.inward }
        ensures connections { KeepsConnections (plain self.old) (plain self.new) }
        ensures end { KeepsEnd Self.Inward.LinkIn Self.Outward.LinkOut end.old end.new }
        ensures risen { risen self.new ≡ risen self.old }
        ensures err_plain { OnErr result (plain self.new ≡ plain self.old) }
        ensures err_carried { OnErr result (carried self.new ≡ carried self.old) }
        ensures err_held { OnErr result (Self.Inward.held end.new.inward ≡ Self.Inward.held end.old.inward) }
        ensures err_flushed { OnErr result (
            Self.Outward.flushed end.new.outward ≡ Self.Outward.flushed end.old.outward) }
        ensures cause { RoadCause (faults self.old) (faults self.new) result }
        ensures schedule { FollowsSchedule
            (schedule self.old) (schedule self.new) (faults self.old) (faults self.new) result };

    /// Takes an end back with its pieces and its counts. The end is one that these roads gave,
    /// where observable. Its only error is `Memory`; what was passed in is then given up.
    fn bring(
        &mut self,
        alloc: Global,
        end: Conn<Self::Inward, Self::Outward>,
    ) -> Result<(), RoadError>
        requires { IsKnown (plain self.old) end.id.0 }
        ensures carried { OnOk result (CarriesOf Self.Outward.LinkOut end (carried self.old) (carried self.new)) }
        ensures plain { OnOk result (Flushes
            Self.Inward.LinkIn Self.Outward.LinkOut end (plain self.old) (plain self.new)) }
        ensures connections { KeepsConnections (plain self.old) (plain self.new) }
        ensures risen { OnOk result ((c : ℕ) → risen self.new c
            ≡ (risen self.old c || ((end.id.0 == c) && has_failed Self.Inward.LinkIn Self.Outward.LinkOut end))) }
        ensures err_carried { OnErr result (carried self.new ≡ carried self.old) }
        ensures err_plain { OnErr result (plain self.new ≡ plain self.old) }
        ensures err_risen { OnErr result (risen self.new ≡ risen self.old) }
        ensures cause { OnlyMemory (faults self.old) (faults self.new) result }
        ensures schedule { KeepsSchedule (schedule self.old) (schedule self.new) (faults self.old) (faults self.new) };

    /// Whether the count of an end of that connection that was brought back, or gathered with a
    /// share, had risen. Takes no memory.
    fn risen(&self, conn: ConnId) -> bool
        ensures { result ≡ risen self.now conn.0 };

    /// Takes a share back with all that was brought to it, and adds its count. Its only error is
    /// `Memory`; what was passed in is then given up.
    fn gather(&mut self, alloc: Global, share: Self) -> Result<(), RoadError>
        ensures carried { OnOk result (carried self.new
            ≡ option_and_then (λ k. option_map (gathered k) (carried share)) (carried self.old)) }
        ensures risen { OnOk result ((c : ℕ) → risen self.new c ≡ (risen self.old c || risen share c)) }
        ensures count { OnOk result (CarriesFaults (faults self.old) (faults share) (faults self.new)) }
        ensures plain { plain self.new ≡ plain self.old }
        ensures err_carried { OnErr result (carried self.new ≡ carried self.old) }
        ensures err_risen { OnErr result (risen self.new ≡ risen self.old) }
        ensures cause { OnlyMemory (faults self.old) (faults self.new) result }
        ensures still { faults share ≡ 0 → IfSome (schedule self.old) (λ _. faults self.new ≡ faults self.old) }
        ensures schedule_same { schedule self.new ≡ schedule self.old };
}
