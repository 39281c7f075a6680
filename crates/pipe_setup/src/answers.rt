//! The answer upstream to a write request, by the mirror's.

ghost use Rattle.std.specs.Prelude.{◌≡◌, ◌≢◌, [], IfOk, option_map};
ghost use Rattle.member_core.specs.Requests.{response_of};
ghost use Rattle.pipe_setup.specs.Answers.{answer_above, answer_after};

use hd_base::Status;
use member_core::{Response, SetupAnswer, response};
use op_headers::WriteOp;
use std::alloc::{AllocError, Global};

/// What a member with a mirror answers upstream once its mirror has answered, or `None` where no answer can be had:
/// SUCCESS where the mirror did, and else ERROR with the first bad member that it named, or the mirror itself. The request
/// has a target.
pub fn setup_above(
    alloc: Global,
    op: &WriteOp,
    below: Option<&Response>,
) -> Result<Response, AllocError>
    requires { op.now.targets ≢ [] }
    ensures { IfOk result (λ answer. answer ≡ response_of op.now (answer_above (option_map (λ r. r.now) below.entry))) }
{
    let Some(below) = below else {
        return response(alloc, op, SetupAnswer::Unreached);
    };
    let answer = answer_after(below)?;
    response(alloc, op, answer)
}

/// The answer after the mirror's.
fn answer_after(below: &Response) -> Result<SetupAnswer, AllocError>
    ensures { IfOk result (λ answer. answer ≡ answer_after below.now) }
{
    if matches!(below.status, Status::Success) {
        return Ok(SetupAnswer::Success);
    }
    if below.first_bad.is_empty() {
        return Ok(SetupAnswer::Unreached);
    }
    Ok(SetupAnswer::Below {
        first_bad: below.first_bad.duplicate()?,
    })
}
