// What a tool asks for, and what it is given.
ghost use Rattle.std.specs.Prelude.{◌≡◌};
ghost use Rattle.insert_points.specs.Calls.{arg_at, args_of, same_point};

use arrayvec::ArrayVec;
use ins_views::Block;
use rv_isa::Instr;

/// What a tool is asked about.
#[derive(Clone, Copy)]
pub enum Thing {
    /// The instruction at `pc`.
    Ins { pc: u32, instr: Instr },
    /// A block, before its first instruction.
    Block(Block),
    /// The routine with this number, before the instruction at `start`.
    Routine { start: u32, index: u32 },
}

/// When a call is made: before the instruction; after it, where it completed and does not jump; or after it, where it
/// completed and jumps.
#[derive(Clone, Copy, Default)]
pub enum Point {
    #[default]
    Before,
    After,
    Taken,
}

/// An argument of a call. Each is a number of 32 bits.
#[derive(Clone, Copy, Default)]
pub enum Arg {
    /// The address of the instruction.
    #[default]
    InstPtr,
    /// Where a load or an atomic other than `sc.w` reads; 0 for any other instruction.
    ReadEa,
    /// Where a store or an atomic other than `lr.w` writes, also a `sc.w` that does not store; 0 for any other instruction.
    WriteEa,
    /// How many bytes a load or a store moves, and 4 for an atomic; 0 for any other instruction.
    MemSize,
    /// 1 for a jump and for a branch whose condition holds before the instruction; 0 for any other.
    BranchTaken,
    /// Where a jump or a branch goes if it is taken; 0 for any other instruction.
    Target,
    /// A register: before the instruction at `Before`, after it at `After` and `Taken`. 0 where there is no such register.
    Reg(u8),
    /// This number.
    Const(u32),
}

/// A call that a tool asks for: when, the number that its event carries, and the event's arguments.
#[derive(Drop, Default)]
pub struct Call {
    pub at: Point,
    pub number: u8,
    pub args: ArrayVec<Arg, 4>,
}

/// What a tool is told at a call. Arguments that the call does not have are 0.
#[derive(Clone, Copy, Default)]
pub struct Event {
    pub number: u8,
    pub args: [u32; 4],
}

/// The four arguments of an event; those that the call does not have are the number 0.
#[derive(Clone, Copy, Default)]
pub struct Args {
    pub first: Arg,
    pub second: Arg,
    pub third: Arg,
    pub fourth: Arg,
}

// The argument at a place of a call, or the number 0.
fn arg_at(args: &[Arg], k: usize) -> Arg
    ensures { result ≡ arg_at args.now k }
{
    match args.get(k) {
        Some(arg) => *arg,
        None => Arg::Const(0),
    }
}

impl Args {
    /// The arguments of a call, filled up to four.
    pub(crate) fn of(args: &[Arg]) -> Args
        ensures { result ≡ args_of args.now }
    {
        Args {
            first: arg_at(args, 0),
            second: arg_at(args, 1),
            third: arg_at(args, 2),
            fourth: arg_at(args, 3),
        }
    }
}

/// Whether two points are one.
pub(crate) fn same_point(a: Point, b: Point) -> bool
    ensures { result ≡ same_point a b }
{
    match (a, b) {
        (Point::Before, Point::Before) => true,
        (Point::After, Point::After) => true,
        (Point::Taken, Point::Taken) => true,
        _ => false,
    }
}
