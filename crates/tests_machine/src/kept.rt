// Steps by an instruction that the caller has looked up.
use guest_mem::laws::frames_of_instructions;
use rv_isa::Op;
use rv_machine::{Guest, Stepped};
use sample_files::{EXIT_7, guest_of, one_segment};
use std::test::Fail;

// Names an instance of what carries an instruction out.
struct Here;

// Makes a step by the instruction that is kept at pc, and answers how it went. None where none is kept.
fn step_kept(guest: &mut Guest) -> Option<Stepped> {
    if guest.space().free() < 2 {
        return None;
    }
    frames_of_instructions();
    let instr = guest.kept()?;
    Some(guest.step_by::<Here>(&instr))
}

#[test]
fn steps_by_kept_instructions(rt: HostRuntime) -> Result<(), Fail> {
    let file = one_segment(rt.alloc(), &EXIT_7)?;
    let mut guest = guest_of(rt.alloc(), &file, &[]).ok_or("no guest")?;
    let first = guest.kept().ok_or("none kept")?;
    assert!(rt; first.op == Op::Addi && first.rd == 17 && first.rs1 == 0 && first.imm == 93);
    assert!(rt; step_kept(&mut guest) == Some(Stepped::Next) && guest.reg(17) == 93);
    assert!(rt; step_kept(&mut guest) == Some(Stepped::Next) && guest.reg(10) == 7);
    assert!(rt; step_kept(&mut guest) == Some(Stepped::Call) && guest.pc() == 0x1005c);
    Ok(())
}
