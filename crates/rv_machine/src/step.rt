// One step: fetch, decode, carry out.
ghost use Rattle.std.specs.Prelude.{◌≡◌, ◌%◌, ◌<◌, IfSome, MatchResult, Some, false};
ghost use Rattle.guest_model.specs.Effect.{Effect, effect_of, effect_by, stored_by, rs1_value, rs2_value};
ghost use Rattle.guest_model.specs.Effect.{immediate, address, target, machine_at, machine_with};
ghost use Rattle.guest_model.specs.Effect.{passes, writes, computes, jumps, branches, loads};
ghost use Rattle.guest_model.specs.Effect.{stores, aligned, reserves, swaps, stores_conditionally};
ghost use Rattle.guest_model.specs.Effect.{stores_reserved, machine_reserving};
ghost use Rattle.guest_model.specs.Space.{write_number};
ghost use Rattle.guest_model.specs.Machine.{following, instruction_at, is_reserved};
ghost use Rattle.guest_mem.specs.Code.{word_at};
ghost use Rattle.guest_mem.specs.Frames.{HasAllFrames};
ghost use Rattle.rv_isa.specs.Kinds.{mem_size};
ghost use Rattle.rv_machine.specs.Ran.{HasFramesFor, HasRun};
ghost use Rattle.rv_machine.specs.Step.{Gives, kind_number, status_of};

use crate::guest::Guest;
use rv_isa::{Instr, Op, alu, amo, is_taken, is_terminator, loaded, mem_size};

/// The kinds of faults, by the numbers of their signals.
#[derive(Clone, Copy, PartialEq, Eq)]
pub enum FaultKind {
    /// A word that is no instruction (SIGILL).
    Illegal = 4,
    /// An ebreak (SIGTRAP).
    Break = 5,
    /// A jump to an address that is no multiple of 4, or an atomic there (SIGBUS).
    Misaligned = 7,
    /// An access that the memory's areas do not permit (SIGSEGV).
    Access = 11,
}

/// What a step answers. At a call and at a fault nothing changed.
#[derive(Clone, Copy, PartialEq, Eq)]
pub enum Stepped {
    Next,
    Call,
    Fault(FaultKind),
}

/// How many steps completed, and what the last one that was tried answered.
#[derive(Clone, Copy, PartialEq, Eq)]
pub struct Ran {
    pub completed: u64,
    pub last: Stepped,
}

/// How a run ends.
#[derive(Clone, Copy, PartialEq, Eq)]
pub enum End {
    /// By a call, with this status.
    Exit(u8),
    /// By a fault of the instruction at `pc`.
    Signal { kind: FaultKind, pc: u32 },
}

impl End {
    /// The exit status that a shell sees: that of the call, or 128 plus the number of the fault's
    /// signal.
    pub fn status(&self) -> u8
        ensures { result ≡ status_of self.now }
    {
        match self {
            End::Exit(status) => *status,
            End::Signal { kind, .. } => 128 + *kind as u8,
        }
    }
}

// Names the instance of `Guest::carry_out` that `Guest::step` calls.
pub(crate) struct OneStep;

// Names the instance that the loop of `Guest::run` calls.
pub(crate) struct InRun;

#[tactic(auto, using(guest_mem::proofs::Ranges::takes_none))]
impl Guest {
    /// Tries the instruction at pc. Two free frames always suffice.
    #[inline(never)]
    pub fn step(&mut self) -> Stepped
        requires { HasAllFrames self.old.frames (stored_by (effect_of self.old.machine)) }
        ensures { Gives (effect_of self.old.machine) result self.old self.new }
    {
        let i = match self.memory.kept_at(self.pc) {
            Some(i) => fields_of(i),
            None => match self.look_up() {
                Ok(i) => i,
                Err(kind) => return Stepped::Fault(kind),
            },
        };
        self.carry_out::<OneStep>(&i)
    }

    /// The instruction at pc, where the memory keeps it decoded. None says nothing of it: then `step` looks it up.
    #[inline(always)]
    pub fn kept(&self) -> Option<Instr>
        ensures { IfSome result (λ i. instruction_at self.now.machine ≡ Some i) }
    {
        match self.memory.kept_at(self.pc) {
            Some(i) => Some(fields_of(i)),
            None => None,
        }
    }

    /// Tries the instruction at pc, which the caller has looked up. `W` is a name that no value has: for each there is an instance
    /// of its own of what carries an instruction out, and the compiler puts it into its caller where it has only one.
    #[inline(always)]
    pub fn step_by<W>(&mut self, i: &Instr) -> Stepped
        requires at { instruction_at self.old.machine ≡ Some i.now }
        requires frames { HasAllFrames self.old.frames (stored_by (effect_of self.old.machine)) }
        ensures { Gives (effect_of self.old.machine) result self.old self.new }
    {
        self.carry_out::<W>(i)
    }

    /// Makes at most `steps` steps. It stops before a call or a fault, and behind a step after which
    /// more than `pages` pages are written.
    pub fn run(&mut self, steps: u64, pages: u32) -> Ran
        requires { HasFramesFor pages self.old.frames }
        ensures { HasRun steps pages self.old self.new result }
    {
        let _written = self.memory.written();
        let mut pc = self.pc;
        for completed in 0..steps {
            match self.step_of_run(&mut pc) {
                Stepped::Next => {
                    if self.memory.written() > pages {
                        return Ran {
                            completed: completed + 1,
                            last: Stepped::Next,
                        };
                    }
                }
                Stepped::Call => {
                    return Ran {
                        completed,
                        last: Stepped::Call,
                    };
                }
                Stepped::Fault(kind) => {
                    return Ran {
                        completed,
                        last: Stepped::Fault(kind),
                    };
                }
            }
        }
        Ran {
            completed: steps,
            last: Stepped::Next,
        }
    }

    // The same as a step, within the loop of a run, which has pc in a local place.
    #[inline(always)]
    fn step_of_run(&mut self, pc: &mut u32) -> Stepped
        requires frames { HasAllFrames self.old.frames (stored_by (effect_of self.old.machine)) }
        requires pc { pc.old ≡ self.old.machine.pc }
        ensures gives { Gives (effect_of self.old.machine) result self.old self.new }
        ensures pc { result ≡ Stepped.Next → pc.new ≡ self.new.machine.pc }
    {
        match self.memory.kept_at(*pc) {
            Some(i) => {
                let i = fields_of(i);
                let stepped = self.carry_out::<InRun>(&i);
                if let Stepped::Next = stepped {
                    *pc = self.pc;
                }
                stepped
            }
            None => {
                let stepped = self.step();
                *pc = self.pc;
                stepped
            }
        }
    }

    // The instruction at pc, where it is not kept decoded, or the fault of the word there.
    #[inline(never)]
    #[tactic(auto, unfolding(guest_model::specs::Effect::effect_of))]
    fn look_up(&self) -> Result<Instr, FaultKind>
        ensures { MatchResult result
            (λ i. word_at self.now.machine.space self.now.machine.pc ≡ Some (Some i))
            (λ kind. effect_of self.now.machine ≡ Effect.Fault (kind_number kind)) }
    {
        match self.memory.instruction_at(self.pc) {
            Err(_) => Err(FaultKind::Access),
            Ok(None) => Err(FaultKind::Illegal),
            Ok(Some(i)) => Ok(i),
        }
    }

    // Carries out an instruction. Each operation has an arm of its own, in which what depends on it
    // alone is settled. `W` names an instance of this function; each is put into the one place that
    // calls it.
    fn carry_out<W>(&mut self, i: &Instr) -> Stepped
        requires { HasAllFrames self.old.frames (stored_by (effect_by i.now.op self.old.machine i.now)) }
        ensures { Gives (effect_by i.now.op self.old.machine i.now) result self.old self.new }
    {
        match i.op {
            Op::Lui => self.write(i, immediate(i)),
            Op::Auipc => self.write(i, self.target(i)),
            Op::Jal => self.jump(i, self.target(i)),
            Op::Jalr => self.jump(i, self.address(i) & !1),
            Op::Beq => self.branch(i),
            Op::Bne => self.branch(i),
            Op::Blt => self.branch(i),
            Op::Bge => self.branch(i),
            Op::Bltu => self.branch(i),
            Op::Bgeu => self.branch(i),
            Op::Lb => self.load_register(i),
            Op::Lh => self.load_register(i),
            Op::Lw => self.load_register(i),
            Op::Lbu => self.load_register(i),
            Op::Lhu => self.load_register(i),
            Op::Sb => self.store(i),
            Op::Sh => self.store(i),
            Op::Sw => self.store(i),
            Op::Addi => self.compute(i, immediate(i)),
            Op::Slti => self.compute(i, immediate(i)),
            Op::Sltiu => self.compute(i, immediate(i)),
            Op::Xori => self.compute(i, immediate(i)),
            Op::Ori => self.compute(i, immediate(i)),
            Op::Andi => self.compute(i, immediate(i)),
            Op::Slli => self.compute(i, immediate(i)),
            Op::Srli => self.compute(i, immediate(i)),
            Op::Srai => self.compute(i, immediate(i)),
            Op::Add => self.compute(i, self.rs2(i)),
            Op::Sub => self.compute(i, self.rs2(i)),
            Op::Sll => self.compute(i, self.rs2(i)),
            Op::Slt => self.compute(i, self.rs2(i)),
            Op::Sltu => self.compute(i, self.rs2(i)),
            Op::Xor => self.compute(i, self.rs2(i)),
            Op::Srl => self.compute(i, self.rs2(i)),
            Op::Sra => self.compute(i, self.rs2(i)),
            Op::Or => self.compute(i, self.rs2(i)),
            Op::And => self.compute(i, self.rs2(i)),
            Op::Mul => self.compute(i, self.rs2(i)),
            Op::Mulh => self.compute(i, self.rs2(i)),
            Op::Mulhsu => self.compute(i, self.rs2(i)),
            Op::Mulhu => self.compute(i, self.rs2(i)),
            Op::Div => self.compute(i, self.rs2(i)),
            Op::Divu => self.compute(i, self.rs2(i)),
            Op::Rem => self.compute(i, self.rs2(i)),
            Op::Remu => self.compute(i, self.rs2(i)),
            Op::LrW => self.reserve(*i),
            Op::ScW => self.store_conditionally(*i),
            Op::AmoswapW => self.swap(*i),
            Op::AmoaddW => self.swap(*i),
            Op::AmoxorW => self.swap(*i),
            Op::AmoandW => self.swap(*i),
            Op::AmoorW => self.swap(*i),
            Op::AmominW => self.swap(*i),
            Op::AmomaxW => self.swap(*i),
            Op::AmominuW => self.swap(*i),
            Op::AmomaxuW => self.swap(*i),
            Op::Fence => self.go_on(i),
            Op::Ecall => Stepped::Call,
            Op::Ebreak => Stepped::Fault(FaultKind::Break),
        }
    }

    fn rs1(&self, i: &Instr) -> u32
        ensures { result ≡ rs1_value self.now.machine i.now }
    {
        self.reg(i.rs1)
    }

    fn rs2(&self, i: &Instr) -> u32
        ensures { result ≡ rs2_value self.now.machine i.now }
    {
        self.reg(i.rs2)
    }

    // Where a load, a store or a jump by a register goes.
    fn address(&self, i: &Instr) -> u32
        ensures { result ≡ address self.now.machine i.now }
    {
        self.rs1(i).wrapping_add(immediate(i))
    }

    // Where a branch or a jump from pc goes.
    fn target(&self, i: &Instr) -> u32
        ensures { result ≡ target self.now.machine i.now }
    {
        self.pc.wrapping_add(immediate(i))
    }

    fn following(&self) -> u32
        ensures { result ≡ following self.now.machine }
    {
        self.pc.wrapping_add(4)
    }

    // Goes to `next`.
    fn move_to(&mut self, i: &Instr, next: u32)
        ensures machine { self.new.machine ≡ machine_at self.old.machine i.now next }
        ensures frames { self.new.frames ≡ self.old.frames }
        ensures origin { self.new.origin ≡ self.old.origin }
    {
        self.pc = next;
        self.fresh = is_terminator(i);
    }

    // Goes to `next`, with a value in rd; x0 stays 0.
    fn write_and_move(&mut self, i: &Instr, value: u32, next: u32)
        ensures machine { self.new.machine ≡ machine_with self.old.machine i.now value next }
        ensures frames { self.new.frames ≡ self.old.frames }
        ensures origin { self.new.origin ≡ self.old.origin }
    {
        if i.rd != 0 {
            self.registers[i.rd as usize] = value;
        }
        self.move_to(i, next);
    }

    fn go_on(&mut self, i: &Instr) -> Stepped
        ensures { Gives (passes self.old.machine i.now) result self.old self.new }
    {
        self.move_to(i, self.following());
        Stepped::Next
    }

    fn write(&mut self, i: &Instr, value: u32) -> Stepped
        ensures { Gives (writes self.old.machine i.now value) result self.old self.new }
    {
        self.write_and_move(i, value, self.following());
        Stepped::Next
    }

    #[inline(always)]
    fn compute(&mut self, i: &Instr, operand: u32) -> Stepped
        ensures { Gives (computes self.old.machine i.now operand) result self.old self.new }
    {
        match alu(i.op, self.rs1(i), operand) {
            Some(value) => self.write(i, value),
            None => self.go_on(i),
        }
    }

    fn jump(&mut self, i: &Instr, to: u32) -> Stepped
        ensures { Gives (jumps self.old.machine i.now to) result self.old self.new }
    {
        if to % 4 != 0 {
            return Stepped::Fault(FaultKind::Misaligned);
        }
        self.write_and_move(i, self.following(), to);
        Stepped::Next
    }

    #[inline(always)]
    fn branch(&mut self, i: &Instr) -> Stepped
        ensures { Gives (branches self.old.machine i.now) result self.old self.new }
    {
        if !is_taken(i.op, self.rs1(i), self.rs2(i)) {
            return self.go_on(i);
        }
        let target = self.target(i);
        if target % 4 != 0 {
            return Stepped::Fault(FaultKind::Misaligned);
        }
        self.move_to(i, target);
        Stepped::Next
    }

    #[inline(always)]
    fn load_register(&mut self, i: &Instr) -> Stepped
        requires { 0 < mem_size i.now.op }
        ensures { Gives (loads self.old.machine i.now) result self.old self.new }
    {
        match self.memory.load(self.address(i), mem_size(i)) {
            Ok(value) => self.write(i, loaded(i.op, value)),
            Err(_) => Stepped::Fault(FaultKind::Access),
        }
    }

    #[inline(always)]
    fn store(&mut self, i: &Instr) -> Stepped
        requires size { 0 < mem_size i.now.op }
        requires frames { HasAllFrames self.old.frames (stored_by (stores self.old.machine i.now)) }
        ensures { Gives (stores self.old.machine i.now) result self.old self.new }
    {
        let at = self.address(i);
        let value = self.rs2(i);
        match self.memory.store(at, mem_size(i), value) {
            Ok(()) => {
                self.move_to(i, self.following());
                Stepped::Next
            }
            Err(_) => Stepped::Fault(FaultKind::Access),
        }
    }

    // Goes on with a value in rd. From then on this is reserved.
    fn write_reserving(&mut self, i: &Instr, value: u32, reservation: Option<u32>)
        ensures machine { self.new.machine ≡ machine_reserving self.old.machine i.now value reservation }
        ensures frames { self.new.frames ≡ self.old.frames }
        ensures origin { self.new.origin ≡ self.old.origin }
    {
        self.write_and_move(i, value, self.following());
        self.reservation = reservation;
    }

    // Whether this address is the one that is reserved.
    fn is_reserved(&self, at: u32) -> bool
        ensures { result ≡ is_reserved self.now.machine.reservation at }
    {
        match self.reservation {
            Some(reserved) => reserved == at,
            None => false,
        }
    }

    // lr.w: reads the word, and reserves its address. The atomics are called, each with a copy of the
    // instruction, so that the arms of the others stay as short as they are without them.
    #[inline(never)]
    fn reserve(&mut self, i: Instr) -> Stepped
        ensures { Gives (aligned self.old.machine i (reserves self.old.machine i)) result self.old self.new }
    {
        let at = self.address(&i);
        if at % 4 != 0 {
            return Stepped::Fault(FaultKind::Misaligned);
        }
        match self.memory.load(at, 4) {
            Ok(value) => {
                self.write_reserving(&i, value, Some(at));
                Stepped::Next
            }
            Err(_) => Stepped::Fault(FaultKind::Access),
        }
    }

    // An atomic memory operation: reads the word, and stores what the operation makes of it and of rs2,
    // which is read before rd is written.
    #[inline(never)]
    fn swap(&mut self, i: Instr) -> Stepped
        requires { HasAllFrames self.old.frames (stored_by (aligned self.old.machine i (swaps self.old.machine i))) }
        ensures { Gives (aligned self.old.machine i (swaps self.old.machine i)) result self.old self.new }
    {
        let at = self.address(&i);
        if at % 4 != 0 {
            return Stepped::Fault(FaultKind::Misaligned);
        }
        let Ok(read) = self.memory.load(at, 4) else {
            return Stepped::Fault(FaultKind::Access);
        };
        let value = amo(i.op, read, self.rs2(&i));
        match self.memory.store(at, 4, value) {
            Ok(()) => {
                self.write_and_move(&i, read, self.following());
                Stepped::Next
            }
            Err(_) => Stepped::Fault(FaultKind::Access),
        }
    }

    // sc.w: stores rs2 where the address is reserved. Nothing is reserved from then on.
    #[inline(never)]
    fn store_conditionally(&mut self, i: Instr) -> Stepped
        requires { HasAllFrames self.old.frames (stored_by (aligned self.old.machine i (stores_conditionally self.old.machine i))) }
        ensures { Gives (aligned self.old.machine i (stores_conditionally self.old.machine i)) result self.old self.new }
    {
        let at = self.address(&i);
        if at % 4 != 0 {
            return Stepped::Fault(FaultKind::Misaligned);
        }
        let Ok(_read) = self.memory.load(at, 4) else {
            return Stepped::Fault(FaultKind::Access);
        };
        if !self.is_reserved(at) {
            return self.fail_to_store(&i, at);
        }
        let value = self.rs2(&i);
        match self.memory.store(at, 4, value) {
            Ok(()) => {
                self.write_reserving(&i, 0, None);
                Stepped::Next
            }
            Err(_) => Stepped::Fault(FaultKind::Access),
        }
    }

    // sc.w where the address is not reserved: stores nothing, but asks whether it might.
    fn fail_to_store(&mut self, i: &Instr, at: u32) -> Stepped
        requires aligned { at % 4 ≡ 0 }
        requires at { at ≡ address self.old.machine i.now }
        ensures { Gives (stores_reserved self.old.machine i.now false
            (write_number self.old.machine.space at 4 (rs2_value self.old.machine i.now))) result self.old self.new }
    {
        if !self.memory.writable(at, 4) {
            return Stepped::Fault(FaultKind::Access);
        }
        self.write_reserving(i, 1, None);
        Stepped::Next
    }
}

// The instruction, each field of which is read where it stands.
#[inline(always)]
fn fields_of(i: &Instr) -> Instr
    ensures { result ≡ i.now }
{
    Instr {
        op: i.op,
        rd: i.rd,
        rs1: i.rs1,
        rs2: i.rs2,
        imm: i.imm,
    }
}

// The immediate, modulo 2^32.
fn immediate(i: &Instr) -> u32
    ensures { result ≡ immediate i.now }
{
    i.imm.cast_unsigned()
}
