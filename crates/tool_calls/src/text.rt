// The text of a trace.
ghost use Rattle.std.specs.Prelude.{◌≡◌, ◌++◌, OnOk};
ghost use Rattle.tool_calls.specs.Text.{call_line, call_lines, places_text};

use crate::slice::Called;
use ins_views::Views;
use sp_report::push_address;
use std::alloc::AllocError;
use tool_parts::{push_number, push_routine};

// Adds `DEPTH FROM TO`.
fn push_places(out: &mut Vec<u8>, call: &Called) -> Result<(), AllocError>
    ensures { OnOk result (out.new.items ≡ out.old.items ++ places_text call.now) }
{
    push_number(out, call.depth)?;
    out.extend_from_slice(b" ")?;
    push_address(out, call.from)?;
    out.extend_from_slice(b" ")?;
    push_address(out, call.to)?;
    Ok(())
}

// Adds `call DEPTH FROM TO ROUTINE`, of which ROUTINE is that of TO.
#[tactic(auto, unfolding(crate::specs::Text::call_line))]
fn push_call(out: &mut Vec<u8>, views: &Views, call: &Called) -> Result<(), AllocError>
    ensures { OnOk result (out.new.items ≡ out.old.items ++ call_line views.now call.now) }
{
    out.extend_from_slice(b"call ")?;
    push_places(out, call)?;
    out.extend_from_slice(b" ")?;
    push_routine(out, views, call.to)?;
    out.extend_from_slice(b"\n")?;
    Ok(())
}

/// Adds a line for each call. It fails for want of memory alone.
pub(crate) fn push_calls(
    out: &mut Vec<u8>,
    views: &Views,
    calls: &[Called],
) -> Result<(), AllocError>
    ensures { OnOk result (out.new.items ≡ out.old.items ++ call_lines views.now calls.now) }
{
    for call in calls {
        push_call(out, views, call)?;
    }
    Ok(())
}
