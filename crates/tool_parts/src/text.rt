// Words of the tools' texts.
ghost use Rattle.std.specs.Prelude.{◌≡◌, ◌++◌, OnOk, decimal};
ghost use Rattle.tool_parts.specs.Text.{routine_shown};

use ins_views::Views;
use itoa::{Buffer, Integer};
use sp_report::push_name;
use std::alloc::AllocError;

/// Adds a number, in decimal. It fails for want of memory alone.
pub fn push_number<I: Integer>(out: &mut Vec<u8>, n: I) -> Result<(), AllocError>
    ensures { OnOk result (out.new.items ≡ out.old.items ++ I.text n) }
{
    let mut buffer = Buffer::new();
    out.extend_from_slice(buffer.format(n).as_bytes())?;
    Ok(())
}

/// Adds the name of the routine in which an address lies, or `-`. It fails for want of memory alone.
#[tactic(auto, unfolding(crate::specs::Text::routine_shown))]
pub fn push_routine(out: &mut Vec<u8>, views: &Views, at: u32) -> Result<(), AllocError>
    ensures { OnOk result (out.new.items ≡ out.old.items ++ routine_shown views.now at) }
{
    match views.routine_of(at) {
        Some(k) if k < views.routines() => push_name(out, views.routine(k).name.bytes()),
        _ => out.extend_from_slice(b"-"),
    }
}
