// The events that each tool's plan gives.
use crate::samples::views;
use insert_points::{Event, Plan, StepView, fire};
use rv_isa::decode;
use std::test::Fail;
use tool_counts::{BlockCount, BlockProfile, InsCount, OpMix};
use tool_law::make_plan;

// A step of `jal x0,0`, or of any other word at `pc`.
fn step(pc: u32, word: u32, fresh: bool) -> Result<StepView, Fail> {
    let instr = decode(word).ok_or("no row")?;
    Ok(StepView {
        pc,
        instr,
        fresh,
        before: [0; 32],
        after: [0; 32],
        next: Some(pc),
    })
}

// Whether a step gives one event, with the number 0 and these arguments.
fn gives(plan: &Plan, step: &StepView, first: u32, second: u32) -> bool {
    let events = fire(plan, step);
    match events.as_slice() {
        [event] => event.number == 0 && event.args == [first, second, 0, 0],
        _ => false,
    }
}

#[test]
fn calls_of_instructions(rt: HostRuntime) -> Result<(), Fail> {
    let alloc = rt.alloc();
    let views = views(alloc)?;
    let count = make_plan(alloc, &views, &InsCount)?;
    let mix = make_plan(alloc, &views, &OpMix)?;
    let addi = step(0x10ff0, 0x00100293, true)?;
    let jal = step(0x11004, 0x0000006f, false)?;
    // an address at which no instruction stands
    let past = step(0x1100c, 0x0000006f, true)?;
    assert!(rt; gives(&count, &addi, 0, 0) && gives(&count, &jal, 0, 0));
    assert!(rt; gives(&mix, &addi, 18, 0) && gives(&mix, &jal, 2, 0));
    assert!(rt; fire(&count, &past).is_empty() && fire(&mix, &past).is_empty());
    Ok(())
}

#[test]
fn calls_of_blocks(rt: HostRuntime) -> Result<(), Fail> {
    let alloc = rt.alloc();
    let views = views(alloc)?;
    let count = make_plan(alloc, &views, &BlockCount)?;
    let profile = make_plan(alloc, &views, &BlockProfile)?;
    let head = step(0x10ff0, 0x00100293, true)?;
    let jal = step(0x11004, 0x0000006f, true)?;
    // within a block
    let later = step(0x11004, 0x0000006f, false)?;
    assert!(rt; gives(&count, &head, 6, 0) && gives(&count, &jal, 1, 0));
    assert!(rt; gives(&profile, &head, 0x10ff0, 6) && gives(&profile, &jal, 0x11004, 1));
    assert!(rt; fire(&count, &later).is_empty() && fire(&profile, &later).is_empty());
    Ok(())
}
