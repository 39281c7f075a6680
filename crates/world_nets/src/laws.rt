//! Laws of what roads show of a world.

ghost use Rattle.world_nets.specs.Laws.{FlushesAreRows, LossesAreRows, TakesAreRows};
ghost use Rattle.world_nets.specs.Changes.{ChangesAreRows, TakingIsRows, AllFlushesAreRows};
ghost use Rattle.world_nets.specs.Ends.{EndsElsewhereStay, EndsInEventsStay, EndsPastFlushesStay, ExchangesKeepTakers};
ghost use Rattle.world_nets.specs.Steps.{
  ChangesAreNets,
  IdleFlushesAreNets,
  LossesAreNets,
  TakesAreNets,
  OverIsKept,
  EventsFollow,
};
ghost use Rattle.world_nets.specs.Dials.{DialsAreNets, DialsMakeEnds, NetsStaySane};
ghost use Rattle.world_nets.specs.Flushing.{MembersSend, ClosingsSend, SetupsSend, WritersSend};
ghost use Rattle.world_nets.specs.Mirrors.{SetupsDial};
ghost use Rattle.world_nets.specs.Drawn.{DownsMake, ReadiesMake, UpsMake, OwnsMake, AsksMake};
ghost use Rattle.world_nets.specs.Starts.{StartsAreNets, NetsCarry};

use hd_base::Roads;

/// What an end flushes, and its shut, make of the roads' connections what sending these messages, and shutting, makes of
/// the world's.
pub fn flushes_are_rows()
    ensures { FlushesAreRows }
{}

/// So does giving an end up.
pub fn losses_are_rows()
    ensures { LossesAreRows }
{}

/// An end that takes gets what stands next in the world.
pub fn takes_are_rows()
    ensures { TakesAreRows }
{}

/// What a change of the world makes of its connections: the messages that it says are sent, and the connections that it
/// says are shut.
pub fn changes_are_rows()
    ensures { ChangesAreRows }
{}

/// What taking what stands next makes of the world's connections.
pub fn taking_is_rows()
    ensures { TakingIsRows }
{}

/// Where ends of different connections are flushed, as the two of a member, the roads' connections become what the world's
/// become.
pub fn all_flushes_are_rows()
    ensures { AllFlushesAreRows }
{}

/// An end of a world stays one, whatever another end does with the roads.
pub fn ends_elsewhere_stay<R: Roads>()
    ensures { EndsElsewhereStay R.Inward.LinkIn R.Outward.LinkOut }
{}

/// So does an end in the middle of an event.
pub fn ends_in_events_stay<R: Roads>()
    ensures { EndsInEventsStay R.Inward.LinkIn R.Outward.LinkOut }
{}

/// An end of a world stays one past several ends that are flushed.
pub fn ends_past_flushes_stay<R: Roads>()
    ensures { EndsPastFlushesStay R.Inward.LinkIn R.Outward.LinkOut }
{}

/// Who may still take stays so in an exchange.
pub fn exchanges_keep_takers()
    ensures { ExchangesKeepTakers }
{}

/// Where ends flush what a change of the world without dials sends, and are shut where it shuts, the roads' connections
/// become those of the world after it.
pub fn changes_are_nets()
    ensures { ChangesAreNets }
{}

/// An end that has nothing to flush changes nothing.
pub fn idle_flushes_are_nets()
    ensures { IdleFlushesAreNets }
{}

/// To give an end up is to flush it with a shut.
pub fn losses_are_nets()
    ensures { LossesAreNets }
{}

/// Where an end takes what stands next, the roads' connections become those of the world in which that was taken.
pub fn takes_are_nets()
    ensures { TakesAreNets }
{}

/// Whether the end of a direction was taken stays so in a change, and where another end takes.
pub fn over_is_kept()
    ensures { OverIsKept }
{}

/// The connections of the world after an event are those of the world that the event makes.
pub fn events_follow()
    ensures { EventsFollow }
{}

/// Where a port is dialled and accepted, and ends flush what a change of the world with this dial sends, the roads'
/// connections become those of the world after it.
pub fn dials_are_nets()
    ensures { DialsAreNets }
{}

/// The two ends of the new connection are ends of that world, and each end that wasn't flushed stays one.
pub fn dials_make_ends<R: Roads>()
    ensures { DialsMakeEnds R.Inward.LinkIn R.Outward.LinkOut }
{}

/// Connections that are sane stay so past flushes, and past a dial.
pub fn nets_stay_sane()
    ensures { NetsStaySane }
{}

/// What a member's step sends and shuts is what its two ends flush.
pub fn members_send()
    ensures { MembersSend }
{}

/// A lower end that ends shuts its connection.
pub fn closings_send()
    ensures { ClosingsSend }
{}

/// What the setup of a member sends and shuts is what its lower end flushes, and the request to its mirror, if that is
/// dialled.
pub fn setups_send()
    ensures { SetupsSend }
{}

/// Whom a node dials that takes a request: the mirror, where the replica takes the request and the mirror could be asked.
pub fn setups_dial()
    ensures { SetupsDial }
{}

/// What a writer's step, and what it takes, send and shut is what its end flushes, if it has one, or the request where it
/// dials.
pub fn writers_send()
    ensures { WritersSend }
{}

/// Where the lower end of a connection takes what stands next, the world becomes that of the member's step, of a setup, or
/// of an end.
pub fn downs_make()
    ensures { DownsMake }
{}

/// Where a member acts without a message, the world becomes that of its turn.
pub fn readies_make()
    ensures { ReadiesMake }
{}

/// Where the upper end of a connection takes what stands next, the world becomes that of the step of the member, or of the
/// writer, that dialled.
pub fn ups_make()
    ensures { UpsMake }
{}

/// A writer's own step is the change that it leads to.
pub fn owns_make()
    ensures { OwnsMake }
{}

/// A writer asks the office in its own step, where no answer waits for it.
pub fn asks_make()
    ensures { AsksMake }
{}

/// Roads on which nothing was dialled, and so many nodes listen, show the first world.
pub fn starts_are_nets()
    ensures { StartsAreNets }
{}

/// What was carried on each direction is what the world has sent there, as it is written.
pub fn nets_carry()
    ensures { NetsCarry }
{}
