//! How a primary begins.

ghost use Rattle.std.specs.Prelude.{◌≡◌, length, All, IfOk, map};
ghost use Rattle.block_recovery.specs.Dialling.{LinkIsKnown, KeepsEnds, is_open};
ghost use Rattle.block_recovery.specs.Beginning.{port_of, ports_of, Prepares, StartsWith, Starts, StartsSo};

use crate::actions::{dial_all, settle};
use crate::dialling::dial_port;
use crate::links::Seat;
use crate::primary::{Primary, PrimaryStep};
use crate::requests::send_request;
use hd_base::{BlockId, LinkIn, LinkOut, Members, NodeId, Roads};
use name_core::{Begun, Desk, OfficeAnswer, OfficeCall};
use op_headers::RecoveryKind;
use recovery_core::{Primary as Core, Recovered, office_refused};
use std::alloc::{AllocError, Global};

impl<I: LinkIn, O: LinkOut> Primary<I, O> {
    /// Its first step, whatever it did before: it asks the office to begin, dials each member and sends those that
    /// answered the INIT. Where the office refuses, or memory runs out, the recovery has ended; in the latter case all
    /// connections are given up.
    pub fn begin<D: Desk, R: Roads<Inward = I, Outward = O>>(
        &mut self,
        alloc: Global,
        office: &mut D,
        roads: &mut R,
    ) -> PrimaryStep
        requires count { length self.old.links.items ≡ length self.old.members }
        requires known { All (LinkIsKnown (R.plain roads.old)) self.old.links.items }
        ensures starts { StartsSo D.Desk R.Roads I.LinkIn O.LinkOut self.old self.new office.old office.new
            roads.old roads.new result }
        ensures same { (self.new.block ≡ self.old.block) × (self.new.members ≡ self.old.members) }
        ensures count { length self.new.links.items ≡ length self.new.members }
        ensures known { All (LinkIsKnown (R.plain roads.new)) self.new.links.items }
    {
        let links = self.links.as_mut_slice();
        match start(alloc, self.block, &self.members, links, office, roads) {
            Ok(core) => {
                self.core = Some(core);
                PrimaryStep::Moved
            }
            Err(end) => {
                self.core = None;
                PrimaryStep::Ended(end)
            }
        }
    }

    /// The port of each member to which there is a connection, in the members' order.
    pub fn ports(&self, alloc: Global) -> Result<Vec<Option<u16>>, AllocError>
        ensures { IfOk result (λ ports. ports.items ≡ ports_of self.now.members self.now.links.items) }
    {
        self.members
            .as_slice()
            .iter()
            .zip(self.links.iter())
            .map(|(node, seat)| port_of(*node, seat))
            .collect(alloc)
    }
}

/// The port that was dialled, where there is a connection.
fn port_of<I: Drop, O: Drop>(node: NodeId, seat: &Seat<I, O>) -> Option<u16>
    ensures { result ≡ port_of node seat.now }
{
    match seat {
        Seat::Open(_) => dial_port(node),
        Seat::Empty | Seat::Lost => None,
    }
}

/// Asks the office to begin, and reaches the members.
fn start<D: Desk, R: Roads>(
    alloc: Global,
    block: BlockId,
    members: &Members,
    links: &mut [Seat<R::Inward, R::Outward>],
    office: &mut D,
    roads: &mut R,
) -> Result<Core, Recovered>
    requires count { length links.old ≡ length members.now }
    requires known { All (LinkIsKnown (R.plain roads.old)) links.old }
    ensures starts { Starts D.Desk R.Roads R.Inward.LinkIn R.Outward.LinkOut block members.now links.old links.new
        office.old office.new roads.old roads.new result }
    ensures count { length links.new ≡ length links.old }
    ensures known { All (LinkIsKnown (R.plain roads.new)) links.new }
{
    match office.ask(&OfficeCall::BeginRecovery { block }) {
        Ok(OfficeAnswer::Begun(begun)) => start_with(alloc, block, begun, members, links, roads),
        Ok(_) => unreachable!(),
        Err(fault) => Err(office_refused(fault)),
    }
}

/// Reaches the members; where memory runs out, all connections are given up.
fn start_with<R: Roads>(
    alloc: Global,
    block: BlockId,
    begun: Begun,
    members: &Members,
    links: &mut [Seat<R::Inward, R::Outward>],
    roads: &mut R,
) -> Result<Core, Recovered>
    requires count { length links.old ≡ length members.now }
    requires known { All (LinkIsKnown (R.plain roads.old)) links.old }
    ensures starts { StartsWith R.Roads R.Inward.LinkIn R.Outward.LinkOut block begun members.now links.old links.new
        roads.old roads.new result }
    ensures count { length links.new ≡ length links.old }
    ensures known { All (LinkIsKnown (R.plain roads.new)) links.new }
{
    let dialled = dial_all(alloc, members, links, roads);
    match prepare(alloc, block, begun, members, dialled, links) {
        Ok(core) => Ok(core),
        Err(_) => {
            settle(alloc, &[], links, roads);
            Err(Recovered::Memory)
        }
    }
}

/// Sends those of the members that were dialled and answered the INIT.
fn prepare<I: Drop, O: LinkOut>(
    alloc: Global,
    block: BlockId,
    begun: Begun,
    members: &Members,
    dialled: Result<(), AllocError>,
    links: &mut [Seat<I, O>],
) -> Result<Core, AllocError>
    requires { length links.old ≡ length members.now }
    ensures prepares { IfOk result (Prepares O.LinkOut block begun members.now dialled links.old links.new) }
    ensures count { length links.new ≡ length links.old }
    ensures ends { KeepsEnds links.old links.new }
{
    dialled?;
    let answered = answered(alloc, links)?;
    let core = Core::new(alloc, block, begun, members, &answered)?;
    send_request(alloc, &core, RecoveryKind::Init, 0, members, members, links)?;
    Ok(core)
}

/// Which of the dials were answered.
fn answered<I: Drop, O: Drop>(alloc: Global, links: &[Seat<I, O>]) -> Result<Vec<bool>, AllocError>
    ensures { IfOk result (λ answered. answered.items ≡ map is_open links.now) }
{
    links.iter().map(|link| link.is_open()).collect(alloc)
}
