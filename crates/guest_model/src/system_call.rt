// The calls of a guest, by their numbers.
ghost use Rattle.std.specs.Prelude.{◌≡◌};
ghost use Rattle.guest_model.specs.Calls.{call_numbered};

/// A call of Linux for RISC-V with 32 bits, by its name in Linux's table.
#[derive(Clone, Copy, PartialEq, Eq)]
pub enum SystemCall {
    Ioctl,
    Read,
    Write,
    Readv,
    Writev,
    Exit,
    ExitGroup,
    SetTidAddress,
    Getpid,
    Gettid,
    Brk,
    Munmap,
    Mmap2,
    ClockGettime64,
}

impl SystemCall {
    /// The call with this number, or None where no row of the table has it.
    #[tactic(auto, unfolding(crate::specs::Calls::call_numbered))]
    pub fn numbered(number: u32) -> Option<SystemCall>
        ensures { result ≡ call_numbered number }
    {
        match number {
            29 => Some(SystemCall::Ioctl),
            63 => Some(SystemCall::Read),
            64 => Some(SystemCall::Write),
            65 => Some(SystemCall::Readv),
            66 => Some(SystemCall::Writev),
            93 => Some(SystemCall::Exit),
            94 => Some(SystemCall::ExitGroup),
            96 => Some(SystemCall::SetTidAddress),
            172 => Some(SystemCall::Getpid),
            178 => Some(SystemCall::Gettid),
            214 => Some(SystemCall::Brk),
            215 => Some(SystemCall::Munmap),
            222 => Some(SystemCall::Mmap2),
            403 => Some(SystemCall::ClockGettime64),
            _ => None,
        }
    }
}
