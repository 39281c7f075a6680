//! The events of primaries, and of the lower ends of connections that they dialled.

ghost use Rattle.std.specs.Prelude.{◌≡◌, ◌<◌, length, IfOk};
ghost use Rattle.node_stops.specs.MemberEvents.Roads.{RoadsPass};
ghost use Rattle.play_model.specs.Recoveries.{all_answered};
ghost use Rattle.node_stops.specs.PlayNodes.Places.{KeepsSizes};
ghost use Rattle.play.specs.Recovering.{KeepsDeed, LeadShows, PrimaryShows, AnswerShows};
ghost use Rattle.play.specs.Showing.{PlayerStands};

use crate::faults::{PlayFault, of_recoveries};
use crate::laws::{recoveries_leave_others, worlds_are_lawful};
use crate::player::Player;
use hd_base::{ConnId, Files, LinkIn, LinkOut, Members, Roads};
use play_dues::{Deed, clients_stay};
use play_model::Recovery;
use std::alloc::{AllocError, Global};
use world::{AnswerList, Caller, Event, OwnStep};

impl<F: Files, I: LinkIn, O: LinkOut> Player<F, I, O> {
    /// The primary of the client at a place takes its own step, with the answers of the office that it asks for; the nodes
    /// that it dials have the lower ends of the connections then.
    pub fn lead<R: Roads<Inward = I, Outward = O>>(
        &mut self,
        alloc: Global,
        roads: &mut R,
        place: usize,
    ) -> Result<(), PlayFault>
        requires stands { PlayerStands R.Roads I.LinkIn O.LinkOut roads.old self.old }
        requires within { place < length self.old.recoveries.clients.items }
        ensures shows { LeadShows F.Files R.Roads I.LinkIn O.LinkOut place self.old self.new roads.old roads.new result }
        ensures sizes { KeepsSizes self.old.nodes self.new.nodes }
        ensures pass { RoadsPass R.Roads roads.old roads.new }
    {
        worlds_are_lawful();
        recoveries_leave_others::<I, O>();
        clients_stay::<I, O>();
        let deed = self.recoveries.clients[place].deed();
        let recovery = self.recoveries.clients[place].recovery.duplicate();
        let running = self.running.as_slice();
        match self.recoveries.own(
            alloc,
            &mut self.office,
            roads,
            &mut self.nodes,
            running,
            place,
        ) {
            Ok(()) => self.keep_deed(alloc, recovery, deed),
            Err(fault) => Err(of_recoveries(fault)),
        }
    }

    /// Keeps what a primary did, and that the office answered it before.
    fn keep_deed(&mut self, alloc: Global, recovery: Recovery, deed: Deed) -> Result<(), PlayFault>
        ensures kept { KeepsDeed recovery deed self.old self.new result }
        ensures sizes { KeepsSizes self.old.nodes self.new.nodes }
    {
        let Recovery {
            primary,
            node,
            block,
            members,
            ..
        } = recovery;
        match deed {
            Deed::Begins => {
                let Ok(answered) = all_answered(alloc, &members) else {
                    return Err(PlayFault::Memory);
                };
                self.keep(Event::Office {
                    caller: Caller::Primary { primary, block },
                })?;
                self.keep(Event::Own(OwnStep::Recover {
                    primary,
                    node,
                    block,
                    members,
                    answered,
                }))
            }
            Deed::Commits => {
                self.keep(Event::Office {
                    caller: Caller::Primary { primary, block },
                })?;
                self.keep(Event::Own(OwnStep::Primary { primary }))
            }
            Deed::GoesOn => self.keep(Event::Own(OwnStep::Primary { primary })),
        }
    }

    /// The primary that dialled a connection takes what stands next there.
    pub fn primary_up<R: Roads<Inward = I, Outward = O>>(
        &mut self,
        alloc: Global,
        roads: &mut R,
        conn: ConnId,
    ) -> Result<(), PlayFault>
        requires { PlayerStands R.Roads I.LinkIn O.LinkOut roads.old self.old }
        ensures shows { PrimaryShows F.Files R.Roads I.LinkIn O.LinkOut conn self.old self.new roads.old roads.new result }
        ensures sizes { KeepsSizes self.old.nodes self.new.nodes }
        ensures pass { RoadsPass R.Roads roads.old roads.new }
    {
        worlds_are_lawful();
        recoveries_leave_others::<I, O>();
        clients_stay::<I, O>();
        match self.recoveries.hear(alloc, roads, &self.nodes, conn) {
            Ok(()) => self.keep(Event::Up { conn }),
            Err(fault) => Err(of_recoveries(fault)),
        }
    }

    /// The lower end of a connection that a primary dialled takes what stands next.
    pub fn answer_down<R: Roads<Inward = I, Outward = O>>(
        &mut self,
        alloc: Global,
        roads: &mut R,
        conn: ConnId,
    ) -> Result<(), PlayFault>
        requires { PlayerStands R.Roads I.LinkIn O.LinkOut roads.old self.old }
        ensures shows { AnswerShows F.Files R.Roads I.LinkIn O.LinkOut conn self.old self.new roads.old roads.new result }
        ensures sizes { KeepsSizes self.old.nodes self.new.nodes }
        ensures pass { RoadsPass R.Roads roads.old roads.new }
    {
        worlds_are_lawful();
        recoveries_leave_others::<I, O>();
        clients_stay::<I, O>();
        match self.recoveries.down(alloc, roads, &mut self.nodes, conn) {
            Ok(()) => self.keep(Event::Down {
                conn,
                answered: true,
            }),
            Err(fault) => Err(of_recoveries(fault)),
        }
    }
}

/// That the dial of each member is answered.
fn all_answered(alloc: Global, members: &Members) -> Result<AnswerList, AllocError>
    ensures { IfOk result (λ list. list ≡ all_answered members.now) }
{
    let answers = vec![in alloc; true; members.as_slice().len()]?;
    Ok(AnswerList::from_vec(answers))
}
