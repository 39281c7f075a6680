//! Which nodes run.

ghost use Rattle.std.specs.Prelude.{◌≡◌};
ghost use Rattle.play_scripts.specs.PlayNodes.Showing.{runs_in};

use hd_base::NodeId;

/// Whether a node runs. One of which nothing is told doesn't.
pub(crate) fn runs_in(running: &[bool], node: NodeId) -> bool
    ensures { result ≡ runs_in running.now node.0 }
{
    running.get(node.0 as usize).copied().unwrap_or(false)
}
