//! What a play takes of the world.

ghost use Rattle.play.specs.Laws.{Laws, PipelinesLeave, ReadsLeave, RecoveriesLeave};

use hd_base::{LinkIn, LinkOut};
use node_stops::{nodes_keep_writers, requests_are_among};
use play_dues::{
    cuts_keep_reads, cuts_keep_recoveries, hearing_keeps_others, members_keep_reads,
    members_keep_recoveries, own_steps_keep_others, primaries_keep_nodes, primaries_keep_others,
    primaries_keep_reads, readers_keep_others, readers_keep_recoveries, readers_take_in_order,
    reads_stay, recoveries_come_in_order, recoveries_name_one_block, recoveries_stay,
    writers_keep_reads, writers_keep_recoveries,
};
use play_laws::{
    commands_are_taken, intakes_stay, members_are_nodes, messages_are_taken_in_order,
    messages_are_written, messages_come_in_order, nothing_comes_early, only_nodes_run,
    recoveries_fit, running_stays, stamps_are_few, targets_are_nodes, unmade_writers_are_fresh,
    writers_are_open, writers_rest,
};
use play_model::{
    enabled_events_are_tested, indices_are_in_range, only_dialled_connections_carry, runs_join,
};
use play_settling::writers_act_or_ask;

/// What holds of the world after every list of events.
pub fn worlds_are_lawful()
    ensures { Laws }
{
    runs_join();
    enabled_events_are_tested();
    indices_are_in_range();
    only_dialled_connections_carry();
    messages_come_in_order();
    messages_are_taken_in_order();
    messages_are_written();
    recoveries_fit();
    stamps_are_few();
    requests_are_among();
    only_nodes_run();
    running_stays();
    members_are_nodes();
    targets_are_nodes();
    writers_rest();
    writers_are_open();
    nothing_comes_early();
    writers_act_or_ask();
    commands_are_taken();
    unmade_writers_are_fresh();
    intakes_stay();
    own_steps_keep_others();
    hearing_keeps_others();
    nodes_keep_writers();
    readers_take_in_order();
    recoveries_come_in_order();
    recoveries_name_one_block();
    readers_keep_others();
    primaries_keep_others();
    primaries_keep_nodes();
}

/// What the events of writers and members, and cuts, leave of reads and recoveries.
pub(crate) fn pipelines_leave_others<I: LinkIn, O: LinkOut>()
    ensures { PipelinesLeave I.LinkIn O.LinkOut }
{
    reads_stay::<I, O>();
    writers_keep_reads::<I, O>();
    members_keep_reads::<I, O>();
    cuts_keep_reads::<I, O>();
    recoveries_stay::<I, O>();
    writers_keep_recoveries::<I, O>();
    members_keep_recoveries::<I, O>();
    cuts_keep_recoveries::<I, O>();
}

/// What the events of readers, and of the lower ends that they dialled, leave of the recoveries.
pub(crate) fn reads_leave_others<I: LinkIn, O: LinkOut>()
    ensures { ReadsLeave I.LinkIn O.LinkOut }
{
    recoveries_stay::<I, O>();
    readers_keep_recoveries::<I, O>();
}

/// What the events of primaries, and of the lower ends that they dialled, leave of the reads.
pub(crate) fn recoveries_leave_others<I: LinkIn, O: LinkOut>()
    ensures { RecoveriesLeave I.LinkIn O.LinkOut }
{
    reads_stay::<I, O>();
    primaries_keep_reads::<I, O>();
}
