// Plans, and the events of steps.
use crate::files::{COUNTER, bytes_of, is_shared};
use arrayvec::ArrayVec;
use elf_load::load;
use ins_views::{Block, Views};
use insert_points::{Arg, Call, Event, Operands, Plan, Point, StepView, Thing, fire};
use rv_isa::{Instr, decode};
use std::alloc::{AllocError, Global};
use std::test::Fail;

// A call with these arguments.
fn call(at: Point, number: u8, args: &[Arg]) -> Call {
    let mut list = ArrayVec::new();
    for arg in args {
        if !list.is_full() {
            list.push(*arg);
        }
    }
    Call {
        at,
        number,
        args: list,
    }
}

// Offers a thing two calls.
fn offer(plan: &mut Plan, thing: Thing, first: Call, second: Call) -> Result<(), AllocError> {
    let mut calls = ArrayVec::new();
    calls.push(first);
    calls.push(second);
    plan.offer(&thing, &calls)
}

fn is_event(events: &[Event], k: usize, number: u8, args: [u32; 4]) -> bool {
    match events.get(k) {
        Some(event) => event.number == number && event.args == args,
        None => false,
    }
}

// A step at `pc` with x5 = 3, x6 = 0x20000 and x7 = 9 before, x5 = 4 after.
fn step(pc: u32, instr: Instr, next: Option<u32>) -> StepView {
    let mut before = [0; 32];
    before[5] = 3;
    before[6] = 0x20000;
    before[7] = 9;
    let mut after = before;
    after[5] = 4;
    StepView {
        pc,
        instr,
        fresh: true,
        before,
        after,
        next,
    }
}

// Each instruction of the file is offered one call at Taken, number 1, with Target.
fn targets(alloc: Global) -> Result<Plan, Fail> {
    let file = bytes_of(alloc, &COUNTER)?;
    let views = Views::new(alloc, &load(alloc, &file).ok().ok_or("refused")?)?;
    let mut plan = Plan::empty(alloc);
    for k in 0..12 {
        let pc = 0x10074 + 4 * k;
        if let Some(instr) = views.ins_at(pc) {
            let mut calls = ArrayVec::new();
            calls.push(call(Point::Taken, 1, &[Arg::Target]));
            plan.offer(&Thing::Ins { pc, instr }, &calls)?;
        }
    }
    Ok(plan)
}

#[test]
fn targets_of_jumps(rt: HostRuntime) -> Result<(), Fail> {
    let plan = is_shared(targets(rt.alloc())?);
    // jal x0,-24 and beq x5,x0,12
    let jal = decode(0xfe9ff06f).ok_or("no row")?;
    let beq = decode(0x00028663).ok_or("no row")?;
    let jump = fire(&plan, &step(0x10094, jal, Some(0x1007c)));
    assert!(rt; jump.len() == 1);
    assert!(rt; is_event(&jump, 0, 1, [0x1007c, 0, 0, 0]));
    assert!(rt; fire(&plan, &step(0x1008c, beq, Some(0x10090))).is_empty());
    assert!(rt; fire(&plan, &step(0x10094, jal, None)).is_empty());
    Ok(())
}

// A plan with calls of each kind at 0x1007c, where `lw x5,-4(x6)` stands.
fn kinds(alloc: Global, instr: Instr) -> Result<Plan, AllocError> {
    let mut plan = Plan::empty(alloc);
    let (head, start) = (0x1007c, 0x1007c);
    offer(
        &mut plan,
        Thing::Block(Block { head, len: 4 }),
        call(Point::Before, 2, &[Arg::InstPtr, Arg::Const(4)]),
        call(Point::After, 3, &[]),
    )?;
    offer(
        &mut plan,
        Thing::Ins { pc: head, instr },
        call(Point::After, 4, &[Arg::Reg(5), Arg::Reg(32), Arg::ReadEa]),
        call(
            Point::Before,
            5,
            &[Arg::Reg(5), Arg::ReadEa, Arg::WriteEa, Arg::MemSize],
        ),
    )?;
    offer(
        &mut plan,
        Thing::Routine { start, index: 0 },
        call(Point::Before, 6, &[Arg::BranchTaken, Arg::Target]),
        call(Point::Taken, 7, &[]),
    )?;
    Ok(plan)
}

#[test]
fn events_in_order(rt: HostRuntime) -> Result<(), Fail> {
    // lw x5,-4(x6)
    let lw = decode(0xffc32283).ok_or("no row")?;
    let plan = kinds(rt.alloc(), lw)?;
    let view = step(0x1007c, lw, Some(0x10080));
    let events = fire(&plan, &view);
    assert!(rt; events.len() == 4);
    assert!(rt; is_event(&events, 0, 6, [0, 0, 0, 0]));
    assert!(rt; is_event(&events, 1, 2, [0x1007c, 4, 0, 0]));
    assert!(rt; is_event(&events, 2, 5, [3, 0x1fffc, 0, 4]));
    assert!(rt; is_event(&events, 3, 4, [4, 0, 0x1fffc, 0]));
    Ok(())
}

// `lr.w x5,(x6)`, `sc.w x5,x7,(x6)` and `amoadd.w x5,x7,(x6)`, and where each reads and writes.
const ATOMICS: [(u32, u32, u32); 3] = [
    (0x100322af, 0x20000, 0),
    (0x187322af, 0, 0x20000),
    (0x007322af, 0x20000, 0x20000),
];

#[test]
fn events_of_atomics(rt: HostRuntime) -> Result<(), Fail> {
    for (k, (word, reads, writes)) in ATOMICS.iter().enumerate() {
        let instr = decode(*word).ok_or("no row")?;
        let plan = kinds(rt.alloc(), instr)?;
        let events = fire(&plan, &step(0x1007c, instr, Some(0x10080)));
        assert!(rt; is_event(&events, 2, 5, [3, *reads, *writes, 4]), "row {k}");
        assert!(rt; is_event(&events, 3, 4, [4, 0, *reads, 0]), "row {k}");
    }
    Ok(())
}

#[test]
fn calls_made_ready(rt: HostRuntime) -> Result<(), Fail> {
    let lw = decode(0xffc32283).ok_or("no row")?;
    let plan = kinds(rt.alloc(), lw)?;
    let view = step(0x1007c, lw, Some(0x10080));
    let operands = Operands {
        pc: 0x1007c,
        instr: lw,
        a: 0x20000,
        b: 0,
    };
    let called = plan.at(0x1007c);
    assert!(rt; called.before.len() == 1 && called.after.len() == 1 && called.taken.is_empty());
    let before = [called.before[0].event(&operands, &view.before)];
    let after = [called.after[0].event(&operands, &view.after)];
    assert!(rt; is_event(&before, 0, 5, [3, 0x1fffc, 0, 4]));
    assert!(rt; is_event(&after, 0, 4, [4, 0, 0x1fffc, 0]));
    assert!(rt; plan.is_called(0x1007c) && !plan.is_called(0x1007d) && !plan.is_called(0x10080));
    Ok(())
}

#[test]
fn calls_found(rt: HostRuntime) -> Result<(), Fail> {
    let lw = decode(0xffc32283).ok_or("no row")?;
    let plan = kinds(rt.alloc(), lw)?;
    let found = plan.find(0x1007c).ok_or("nothing")?;
    assert!(rt; found.routine().len() == 1 && found.block().len() == 1);
    assert!(rt; found.before().len() == 1 && found.count_late() == 1);
    let next = plan.find(0x10080).ok_or("no room")?;
    assert!(rt; next.before().is_empty() && next.count_late() == 0);
    assert!(rt; plan.find(0x40000000).is_none());
    Ok(())
}
