// The calls that tools ask for.
ghost use Rattle.std.specs.Prelude.{◌≡◌, ◌++◌, ◌∷◌, [], ◌<◌};
ghost use Rattle.arrayvec.specs.ArrayVec.{array_vec_len};
ghost use Rattle.tool_parts.specs.Calls.{call_of};

use arrayvec::ArrayVec;
use insert_points::{Arg, Call, Point};

/// Adds a call.
pub fn ask(calls: &mut ArrayVec<Call, 8>, at: Point, number: u8, args: ArrayVec<Arg, 4>)
    requires { array_vec_len calls.old < 8 }
    ensures { calls.new.items ≡ calls.old.items ++ call_of at number args.items ∷ [] }
{
    calls.push(Call { at, number, args });
}

/// One argument.
pub fn one_arg(arg: Arg) -> ArrayVec<Arg, 4>
    ensures { result.items ≡ arg ∷ [] }
{
    let mut args = ArrayVec::new();
    args.push(arg);
    args
}

/// Two arguments.
pub fn two_args(first: Arg, second: Arg) -> ArrayVec<Arg, 4>
    ensures { result.items ≡ first ∷ second ∷ [] }
{
    let mut args = ArrayVec::new();
    args.push(first);
    args.push(second);
    args
}
