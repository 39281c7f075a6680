//! The replies of an ack from the mirror.

ghost use Rattle.std.specs.Prelude.{◌≡◌, ◌<◌, length};
ghost use Rattle.member_core.specs.Acks.{is_success, failures, begins_with_bad_sum, are_replies, is_read, with_own};

use hd_base::Status;
use member_core::{Ack, MAX_REPLIES, Replies};

/// Whether a reply is SUCCESS.
fn is_success(status: Status) -> bool
    ensures { result ≡ is_success status }
{
    matches!(status, Status::Success)
}

/// How many of the replies aren't SUCCESS.
pub(crate) fn failures(replies: &Replies) -> usize
    ensures { result ≡ failures replies.now }
{
    let replies = replies.as_slice();
    replies.iter().filter(|reply| !is_success(**reply)).count()
}

/// Whether the mirror has found a wrong sum.
pub(crate) fn begins_with_bad_sum(replies: &Replies) -> bool
    ensures { result ≡ begins_with_bad_sum replies.now }
{
    matches!(replies.as_slice(), [Status::ErrorChecksum, ..])
}

/// Whether there are as many replies as members below, or fewer of which one isn't SUCCESS, but at least one.
fn are_replies(below: u64, replies: &Replies) -> bool
    ensures { result ≡ are_replies below replies.now }
{
    let count = replies.len() as u64;
    count > 0 && (count == below || (count < below && failures(replies) > 0))
}

/// Whether an ack counts as read: it is of this packet, and has replies of the members below.
pub(crate) fn is_read(below: u64, seqno: i64, ack: &Ack) -> bool
    ensures { result ≡ is_read below seqno ack.now }
{
    ack.seqno == seqno && are_replies(below, &ack.replies)
}

/// The replies that go up: this member's own before those from below.
pub(crate) fn with_own(replies: &Replies) -> Replies
    requires { length replies.now < MAX_REPLIES }
    ensures { result ≡ with_own replies.now }
{
    let replies = replies.as_slice();
    let mut all = Replies::empty();
    all.push(Status::Success);
    for reply in replies {
        all.push(*reply);
    }
    all
}
