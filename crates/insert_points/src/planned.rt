// Calls as a plan keeps them.
ghost use Rattle.std.specs.Prelude.{◌≡◌};
ghost use Rattle.rv_isa.specs.Kinds.{mem_size};
ghost use Rattle.insert_points.specs.Events.{event_of};
ghost use Rattle.insert_points.specs.Planned.{any_source, named_source, plan_call, read_source, ready_event, source_of, sources_of, source_value, taken_source, target_source, write_source};

use crate::call::{Arg, Args, Call, Event};
use crate::operands::{Operands, register};
use rv_isa::Op;

/// Where the value of an argument comes from.
#[derive(Clone, Copy, Default)]
pub enum Source {
    /// It is this number.
    Fixed(u32),
    #[default]
    Pc,
    /// The pc with the immediate.
    Ahead,
    /// `rs1` with the immediate.
    Address,
    /// `rs1` with the immediate, its lowest bit cleared.
    EvenAddress,
    Register(u8),
    /// It depends on the instruction's name, or on a branch's condition.
    ByName(Arg),
}

/// Where the four arguments of an event come from.
#[derive(Clone, Copy, Default)]
pub struct Sources {
    pub first: Source,
    pub second: Source,
    pub third: Source,
    pub fourth: Source,
}

/// A call of a plan, with its arguments and with their sources on the instruction that it was asked for.
#[derive(Clone, Copy, Default)]
pub struct PlannedCall {
    pub number: u8,
    pub args: Args,
    pub sources: Sources,
}

fn read_source(op: Op) -> Source
    ensures { result ≡ read_source op }
{
    match op {
        Op::Lb | Op::Lh | Op::Lw | Op::Lbu | Op::Lhu => Source::Address,
        Op::LrW | Op::AmoswapW | Op::AmoaddW | Op::AmoxorW | Op::AmoandW | Op::AmoorW =>
            Source::Address,
        Op::AmominW | Op::AmomaxW | Op::AmominuW | Op::AmomaxuW => Source::Address,
        _ => Source::Fixed(0),
    }
}

fn write_source(op: Op) -> Source
    ensures { result ≡ write_source op }
{
    match op {
        Op::Sb | Op::Sh | Op::Sw => Source::Address,
        Op::ScW | Op::AmoswapW | Op::AmoaddW | Op::AmoxorW | Op::AmoandW | Op::AmoorW =>
            Source::Address,
        Op::AmominW | Op::AmomaxW | Op::AmominuW | Op::AmomaxuW => Source::Address,
        _ => Source::Fixed(0),
    }
}

fn taken_source(op: Op) -> Source
    ensures { result ≡ taken_source op }
{
    match op {
        Op::Jal | Op::Jalr => Source::Fixed(1),
        Op::Beq | Op::Bne | Op::Blt | Op::Bge | Op::Bltu | Op::Bgeu => {
            Source::ByName(Arg::BranchTaken)
        }
        _ => Source::Fixed(0),
    }
}

fn target_source(op: Op) -> Source
    ensures { result ≡ target_source op }
{
    match op {
        Op::Jalr => Source::EvenAddress,
        Op::Jal | Op::Beq | Op::Bne | Op::Blt | Op::Bge | Op::Bltu | Op::Bgeu => Source::Ahead,
        _ => Source::Fixed(0),
    }
}

fn size_of_access(op: Op) -> u32
    ensures { result ≡ mem_size op }
{
    match op {
        Op::Lb | Op::Lbu | Op::Sb => 1,
        Op::Lh | Op::Lhu | Op::Sh => 2,
        Op::Lw | Op::Sw | Op::LrW | Op::ScW => 4,
        Op::AmoswapW | Op::AmoaddW | Op::AmoxorW | Op::AmoandW | Op::AmoorW => 4,
        Op::AmominW | Op::AmomaxW | Op::AmominuW | Op::AmomaxuW => 4,
        _ => 0,
    }
}

// Where an argument comes from on an instruction of this name.
fn named_source(op: Op, arg: Arg) -> Source
    ensures { result ≡ named_source op arg }
{
    match arg {
        Arg::InstPtr => Source::Pc,
        Arg::ReadEa => read_source(op),
        Arg::WriteEa => write_source(op),
        Arg::MemSize => Source::Fixed(size_of_access(op)),
        Arg::BranchTaken => taken_source(op),
        Arg::Target => target_source(op),
        Arg::Reg(n) => Source::Register(n),
        Arg::Const(value) => Source::Fixed(value),
    }
}

// Where an argument comes from on any instruction.
fn any_source(arg: Arg) -> Source
    ensures { result ≡ any_source arg }
{
    match arg {
        Arg::InstPtr => Source::Pc,
        Arg::Reg(n) => Source::Register(n),
        Arg::Const(value) => Source::Fixed(value),
        _ => Source::ByName(arg),
    }
}

fn source_of(op: Option<Op>, arg: Arg) -> Source
    ensures { result ≡ source_of op arg }
{
    match op {
        Some(op) => named_source(op, arg),
        None => any_source(arg),
    }
}

impl Sources {
    /// The sources of these arguments on an instruction of this name, or on any.
    #[tactic(auto, unfolding(crate::specs::Planned::sources_of))]
    pub(crate) fn of(op: Option<Op>, args: &Args) -> Sources
        ensures { result ≡ sources_of op args.now }
    {
        Sources {
            first: source_of(op, args.first),
            second: source_of(op, args.second),
            third: source_of(op, args.third),
            fourth: source_of(op, args.fourth),
        }
    }
}

impl PlannedCall {
    /// A call made ready for the instructions of this name, or for any.
    pub(crate) fn of(op: Option<Op>, call: &Call) -> PlannedCall
        ensures { result ≡ plan_call op call.now }
    {
        let args = Args::of(call.args.as_slice());
        PlannedCall {
            number: call.number,
            args,
            sources: Sources::of(op, &args),
        }
    }

    /// The event of this call, with the registers at its point. It rests on the arguments alone.
    #[inline(always)]
    pub fn asked_event(&self, operands: &Operands, registers: &[u32; 32]) -> Event
        ensures { result ≡ event_of operands.now registers.now self.now }
    {
        let args = &self.args;
        Event {
            number: self.number,
            args: [
                operands.value(args.first, registers),
                operands.value(args.second, registers),
                operands.value(args.third, registers),
                operands.value(args.fourth, registers),
            ],
        }
    }

    /// The event of this call, with the registers at its point, by its sources. It is the call's event where the call was
    /// made ready for any instruction, or for one of this name.
    #[inline(always)]
    pub fn event(&self, operands: &Operands, registers: &[u32; 32]) -> Event
        ensures { result ≡ ready_event operands.now registers.now self.now }
    {
        let sources = &self.sources;
        Event {
            number: self.number,
            args: [
                value_from(sources.first, operands, registers),
                value_from(sources.second, operands, registers),
                value_from(sources.third, operands, registers),
                value_from(sources.fourth, operands, registers),
            ],
        }
    }
}

// What a source gives.
#[inline(always)]
fn value_from(source: Source, operands: &Operands, registers: &[u32; 32]) -> u32
    ensures { result ≡ source_value source operands.now registers.now }
{
    match source {
        Source::Fixed(value) => value,
        Source::Pc => operands.pc,
        Source::Ahead => operands.ahead(),
        Source::Address => operands.address(),
        Source::EvenAddress => operands.even_address(),
        Source::Register(n) => register(registers, n),
        Source::ByName(arg) => operands.value(arg, registers),
    }
}
