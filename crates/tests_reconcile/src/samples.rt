// Files, events, and the texts of tools.
use elf_load::load;
use ins_views::Views;
use insert_points::Event;
use std::alloc::{AllocError, Global};
use std::test::Fail;
use tool_law::Tool;

// The views of a file.
pub fn views_of(alloc: Global, file: &[u8]) -> Result<Views, Fail> {
    let image = load(alloc, file).ok().ok_or("refused")?;
    Ok(Views::new(alloc, &image)?)
}

// The number of an event and its first two arguments.
pub type Row = (u8, u32, u32);

// The events of rows.
fn events_of(alloc: Global, rows: &[Row]) -> Result<Vec<Event>, AllocError> {
    let mut events = Vec::new(alloc);
    for (number, first, second) in rows {
        events.push(Event {
            number: *number,
            args: [*first, *second, 0, 0],
        })?;
    }
    Ok(events)
}

// The local of these events.
fn local_of<T: Tool>(alloc: Global, tool: &T, events: &[Event]) -> Result<T::Local, AllocError> {
    let mut local = tool.begin(alloc)?;
    for event in events {
        tool.on(&mut local, event)?;
    }
    tool.end(&mut local);
    Ok(local)
}

// The text of the events, given to two locals.
fn text_of<T: Tool>(
    alloc: Global,
    tool: &T,
    views: &Views,
    first: &[Event],
    second: &[Event],
) -> Result<Vec<u8>, AllocError> {
    let mut shared = tool.start(alloc, views)?;
    tool.merge(&mut shared, local_of(alloc, tool, first)?)?;
    tool.merge(&mut shared, local_of(alloc, tool, second)?)?;
    let mut out = Vec::new(alloc);
    tool.text(views, &shared, &mut out)?;
    Ok(out)
}

// Whether the rows have this text, wherever they are cut into two slices.
pub fn shows<T: Tool>(
    alloc: Global,
    tool: &T,
    views: &Views,
    rows: &[Row],
    text: &str,
) -> Result<bool, AllocError> {
    let events = events_of(alloc, rows)?;
    for cut in 0..events.len() {
        let (first, second) = events.split_at(cut);
        if text_of(alloc, tool, views, first, second)?.as_slice() != text.as_bytes() {
            return Ok(false);
        }
    }
    Ok(text_of(alloc, tool, views, &events, &[])?.as_slice() == text.as_bytes())
}
