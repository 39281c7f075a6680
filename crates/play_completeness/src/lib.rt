//! Plays without failures complete: their laws, step by step. Each function has an empty body; its clause says what
//! holds.
#![tactic(auto)]

ghost use Rattle.play_completeness.specs.Plain.{PlaysArePlain, AllPeaceful};
ghost use Rattle.play_completeness.specs.Safety.{PlaysAreSafe};
ghost use Rattle.play_completeness.specs.Played.{CommandsJoin, OpenedArePlayed, SettledIsComplete};
ghost use Rattle.play_completeness.specs.Blocks.{CommandsAreOfBlocks};
ghost use Rattle.play_completeness.specs.Formed.{AllFormed};
ghost use Rattle.play_completeness.specs.Hearing.{WritersHear};
ghost use Rattle.play_completeness.specs.Keeping.{CommandsJoinOn, ConnsKeepPlays, OpenedPlayOn, OwnKeepsNames, ReadersKeepPlays};
ghost use Rattle.play_completeness.specs.Turning.{HearingKeepsLinks, PacketsKeepLinks, ReadyKeepsLinks, RequestsKeepLinks};
ghost use Rattle.play_completeness.specs.Waiting.{AwaitedIsDue};

use world_closings::worlds_are_safe;

/// All that happens in a play is a writer's or a reader's step, each dial answered, the office's answer to a writer, or
/// what an end of a connection does, and no call on files fails.
pub fn plays_are_plain()
    ensures { PlaysArePlain }
{}

/// The headline, of each play of a script that fits: replicas hold fronts of what was written, answered bytes stay,
/// FINALIZED replicas agree, and a close that was answered has closed its members.
pub fn plays_are_safe()
    ensures { PlaysAreSafe }
{
    worlds_are_safe();
}

/// Where only such things happen, no primary begins or dials, and no replica breaks or comes into a recovery; nor does
/// the office know of one.
pub fn plain_events_keep_peace()
    ensures { AllPeaceful }
{}

/// Where whoever dialled a connection awaits an answer or an ack on it, something is due of this connection or of one
/// below it: so a play in which nothing is due awaits nothing.
pub fn what_is_awaited_is_due()
    ensures { AwaitedIsDue }
{}

/// Where nothing is due in a play without failures, each command was taken and answered well; and where the last one of
/// a block is a close, each member of its create has a finalized replica with all bytes, under the committed stamp.
pub fn settled_plays_are_complete()
    ensures { SettledIsComplete }
{}

/// Where an end of a pipeline that has taken nothing takes its request, its replica takes it too, so it is a member; its
/// mirror is asked, if it has one; and all connections of pipelines fit their ends as before.
pub fn requests_keep_links()
    ensures { RequestsKeepLinks }
{}

/// Where a member that acts takes what stands next from above, that is a packet that its replica takes, and all
/// connections fit their ends as before.
pub fn packets_keep_links()
    ensures { PacketsKeepLinks }
{}

/// Where a member that acts does something without a message, it has no mirror and acks its oldest packet, and all
/// connections fit their ends as before. With the ack of the last packet it is over.
pub fn acks_at_the_end_keep_links()
    ensures { ReadyKeepsLinks }
{}

/// Where a member that acts takes what stands next from its mirror, that is the mirror's answer, which is SUCCESS, or
/// an ack of its oldest packet by all below, which it passes up, and all connections fit their ends as before.
pub fn hearing_keeps_links()
    ensures { HearingKeepsLinks }
{}

/// Where each writer is as it should be, and one takes what stands next on its connection, that is the answer to its
/// request, which is SUCCESS, or an ack of its oldest packet by all members, and all connections fit their ends as
/// before. With the ack of the last packet it gives its connection up.
pub fn writers_hear_good_news()
    ensures { WritersHear }
{}

/// A play that was only opened is as it should be, and stays so where a command joins a queue that fits those before
/// it.
pub fn plays_begin_well()
    ensures opened { OpenedArePlayed }
    ensures joined { CommandsJoin }
    ensures opened_on { OpenedPlayOn }
    ensures joined_on { CommandsJoinOn }
{}

/// No packet that a writer has formed and that isn't acked ends behind what it sent, and the last one isn't acked as
/// long as a close waits for that.
pub fn writers_have_formed_their_packets()
    ensures { AllFormed }
{}

/// A play of few nodes stays as it should be where what is due of a connection happens: a lower end takes something or
/// acts, or a member, a writer or a reader hears something.
pub fn connections_keep_plays()
    ensures { ConnsKeepPlays }
{}

/// So it does where a reader asks its node.
pub fn readers_keep_plays()
    ensures { ReadersKeepPlays }
{}

/// What a writer does keeps that the commands taken name nodes of the world, and that replicas have their writers'
/// rules.
pub fn writers_keep_names()
    ensures { OwnKeepsNames }
{}

/// A block that a script which fits has commands of is made by one of its lines.
pub fn commands_are_of_blocks()
    ensures { CommandsAreOfBlocks }
{}
