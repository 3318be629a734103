// Requests with what they take from the page as it was first read.
ghost use Rattle.std.specs.Prelude.{◌≡◌, IfOk};
ghost use Rattle.ve_changes.specs.Completions.{first_items, FindsFirst};
ghost use Rattle.ve_session.specs.Asked.{completed_request};

use std::alloc::Global;
use ve_base::Memory;
use ve_changes::{FirstItems, all_completed, completed};
use ve_json::Request;

/// A request with what it takes from there. It is moved where it takes nothing.
pub fn completed_request(
    alloc: Global,
    first: FirstItems<'_>,
    request: Request,
) -> Result<Request, Memory>
    requires first { FindsFirst first.store.now first.list.now.items first.rows.now }
    ensures { IfOk result (λ done. done ≡ completed_request (first_items first.entry) request) }
{
    match request {
        Request::Edit { change } => Ok(Request::Edit {
            change: completed(alloc, first, change)?,
        }),
        Request::Batch { cmds } => Ok(Request::Batch {
            cmds: all_completed(alloc, first, cmds)?,
        }),
        other => Ok(other),
    }
}
