// The report of a run.
ghost use Rattle.std.specs.Prelude.{◌≡◌, List, IfOk};
ghost use Rattle.insert_points.specs.declared.call.Event.{Event};
ghost use Rattle.sp_report.specs.Lines.{end_by};
ghost use Rattle.sp_words.specs.Due.{report_of};

use ins_views::Views;
use ordered_merge::Finished;
use sp_report::{end_line, slice_lines};
use std::alloc::{AllocError, Global};
use tool_law::Tool;

/// The report of a run that ended: the text of what the tool counted, how the run ended, and the lines of its slices where they
/// are asked for.
pub(crate) fn report<T: Tool>(
    alloc: Global,
    tool: &T,
    views: &Views,
    finished: &Finished<T>,
    slices: bool,
) -> Result<Vec<u8>, AllocError>
    ensures { IfOk result (λ text. (xs : List Event) → T.is_value tool.now xs finished.now.shared →
        text.items ≡ report_of slices (T.text_of tool.now views.now (T.value tool.now xs)) (end_by finished.now.end)
        finished.now.lines.items) }
{
    let mut text = Vec::new(alloc);
    tool.text(views, &finished.shared, &mut text)?;
    let end = end_line(alloc, &finished.end)?;
    text.extend_from_slice(&end)?;
    if slices {
        let lines = slice_lines(alloc, &finished.lines)?;
        text.extend_from_slice(&lines)?;
    }
    Ok(text)
}
