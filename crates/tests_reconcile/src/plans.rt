// The events that the tools' plans give.
use crate::samples::views_of;
use cache_tool::DirectCache;
use insert_points::{Plan, StepView, fire};
use rv_isa::decode;
use sample_files::one_segment;
use std::test::Fail;
use tool_calls::CallTrace;
use tool_law::make_plan;

// `lw x5,4(x6)`, `sh x5,-2(x6)`, `jal x1,0`, `jalr x0,2(x1)`, `jalr x1,0(x5)`, `jal x0,0`, `beq x0,x0,0`; from the seventh on
// `lr.w x7,(x5)`, `sc.w x7,x6,(x5)`, `amoswap.w x7,x6,(x5)` and `amomaxu.w x7,x6,(x5)`.
const CODE: [u32; 11] = [
    0x00432283, 0xfe531f23, 0x000000ef, 0x00208067, 0x000280e7, 0x0000006f, 0x00000063, 0x1002a3af,
    0x1862a3af, 0x0862a3af, 0xe062a3af,
];

// A step of the k-th word, where x1 has 0x30001, x5 has 0x40000 and x6 has 0xfffffffe.
fn step(k: usize, next: Option<u32>) -> Result<StepView, Fail> {
    let word = CODE.get(k).ok_or("no word")?;
    let instr = decode(*word).ok_or("no row")?;
    let mut registers = [0; 32];
    registers[1] = 0x30001;
    registers[5] = 0x40000;
    registers[6] = 0xfffffffe;
    Ok(StepView {
        pc: 0x10054 + 4 * k as u32,
        instr,
        fresh: true,
        before: registers,
        after: registers,
        next,
    })
}

// Whether a step gives one event, with this number and these arguments.
fn gives(plan: &Plan, step: &StepView, number: u8, first: u32, second: u32) -> bool {
    match fire(plan, step).as_slice() {
        [event] => event.number == number && event.args == [first, second, 0, 0],
        _ => false,
    }
}

#[test]
fn accesses(rt: HostRuntime) -> Result<(), Fail> {
    let alloc = rt.alloc();
    let views = views_of(alloc, &one_segment(alloc, &CODE)?)?;
    let tool = DirectCache::new(64, 32).ok_or("sizes")?;
    let plan = make_plan(alloc, &views, &tool)?;
    assert!(rt; gives(&plan, &step(0, Some(0x10058))?, 0, 2, 4));
    // a load that faults is an access too
    assert!(rt; gives(&plan, &step(0, None)?, 0, 2, 4));
    assert!(rt; gives(&plan, &step(1, Some(0x1005c))?, 0, 0xfffffffc, 2));
    assert!(rt; fire(&plan, &step(2, Some(0x1005c))?).is_empty());
    // an atomic is one access, also one that reads and writes
    for k in 7..11 {
        let next = 0x10058 + 4 * k as u32;
        assert!(rt;
            gives(&plan, &step(k, Some(next))?, 0, 0x40000, 4),
            "word {k}"
        );
    }
    Ok(())
}

#[test]
fn jumps(rt: HostRuntime) -> Result<(), Fail> {
    let alloc = rt.alloc();
    let views = views_of(alloc, &one_segment(alloc, &CODE)?)?;
    let plan = make_plan(alloc, &views, &CallTrace)?;
    assert!(rt; gives(&plan, &step(2, Some(0x1005c))?, 0, 0x1005c, 0x1005c));
    assert!(rt; gives(&plan, &step(3, Some(0x30002))?, 1, 0x10060, 0x30002));
    assert!(rt; gives(&plan, &step(4, Some(0x40000))?, 2, 0x10064, 0x40000));
    // a jump that did not complete, jumps that are no calls, and a load
    assert!(rt; fire(&plan, &step(3, None)?).is_empty());
    assert!(rt; fire(&plan, &step(5, Some(0x10068))?).is_empty());
    assert!(rt; fire(&plan, &step(6, Some(0x1006c))?).is_empty());
    assert!(rt; fire(&plan, &step(0, Some(0x10058))?).is_empty());
    Ok(())
}
