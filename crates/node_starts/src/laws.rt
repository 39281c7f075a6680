//! A law of nodes that start again.

ghost use Rattle.node_starts.specs.Lives.{DialsAreLived};

use world_breaks::the_past_only_grows;

/// Each connection was dialled in a life of its node that has begun.
pub fn dials_are_of_lives_so_far()
    ensures { DialsAreLived }
{
    the_past_only_grows();
}
