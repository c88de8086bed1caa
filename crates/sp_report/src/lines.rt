// The end line of a run, and the lines of refusals.
ghost use Rattle.std.specs.Prelude.{◌≡◌, ◌+◌, ◌≤◌, ◌++◌, IfOk, OnOk, codes, decimal, length};
ghost use Rattle.sp_report.specs.Digits.{address_text};
ghost use Rattle.sp_report.specs.Lines.{elf_text, end_by, end_text, option_text, port_name, usage_text};
ghost use Rattle.sp_report.specs.Lines.{refusal_line as line_of};

use crate::answer::{OptionName, Refusal, UsageKind};
use crate::digits::{eight_digits, push_address};
use arrayvec::ArrayVec;
use elf_load::ElfFault;
use itoa::Buffer;
use rv_machine::End;
use sp_host::Port;
use std::alloc::{AllocError, Global};

// Adds what a run that exited ends with.
fn push_exit(text: &mut Vec<u8>, status: u8) -> Result<(), AllocError>
    ensures { OnOk result (text.new.items ≡ text.old.items
        ++ (codes "end exit " ++ (decimal status ++ codes "\n"))) }
{
    let mut buffer = Buffer::new();
    text.extend_from_slice(b"end exit ")?;
    text.extend_from_slice(buffer.format(status).as_bytes())?;
    text.push(b'\n')?;
    Ok(())
}

// Adds what a run that a signal ended ends with.
fn push_signal(text: &mut Vec<u8>, kind: u8, pc: u32) -> Result<(), AllocError>
    ensures { OnOk result (text.new.items ≡ text.old.items
        ++ (codes "end signal " ++ (decimal kind ++ (codes " at "
        ++ (address_text pc ++ codes "\n"))))) }
{
    let mut buffer = Buffer::new();
    text.extend_from_slice(b"end signal ")?;
    text.extend_from_slice(buffer.format(kind).as_bytes())?;
    text.extend_from_slice(b" at ")?;
    push_address(text, pc)?;
    text.push(b'\n')?;
    Ok(())
}

/// The end line of a run.
pub fn end_line(alloc: Global, end: &End) -> Result<Vec<u8>, AllocError>
    ensures { IfOk result (λ line. line.items ≡ end_text (end_by end.now)) }
{
    let mut line = Vec::new(alloc);
    match end {
        End::Exit(status) => push_exit(&mut line, *status)?,
        End::Signal { kind, pc } => push_signal(&mut line, *kind as u8, *pc)?,
    }
    Ok(line)
}

// Adds bytes for which there is room.
fn push<const N: usize>(line: &mut ArrayVec<u8, N>, bytes: &[u8])
    requires { length line.old.items + length bytes.now ≤ N }
    ensures { line.new.items ≡ line.old.items ++ bytes.now }
{
    let fits = line.try_extend_from_slice(bytes).is_ok();
    prove!(fits);
}

// Three texts, one after the other.
fn joined<const N: usize>(first: &[u8], second: &[u8], third: &[u8]) -> ArrayVec<u8, N>
    requires { length first.now + length second.now + length third.now ≤ N }
    ensures { result.items ≡ first.now ++ (second.now ++ third.now) }
{
    let mut line = ArrayVec::new();
    push(&mut line, first);
    push(&mut line, second);
    push(&mut line, third);
    line
}

// One text alone.
fn plain<const N: usize>(text: &[u8]) -> ArrayVec<u8, N>
    requires { length text.now ≤ N }
    ensures { result.items ≡ text.now }
{
    let mut line = ArrayVec::new();
    push(&mut line, text);
    line
}

// An address, as `0x` and eight digits.
#[tactic(auto, unfolding(crate::specs::Digits::eight_digits))]
fn address_text(address: u32) -> ArrayVec<u8, 10>
    ensures { result.items ≡ address_text address }
{
    joined(b"0x", &eight_digits(address), b"")
}

fn port_name(port: Port) -> &'static str
    ensures { result.now ≡ port_name port }
{
    match port {
        Port::Out => "Out",
        Port::Err => "Err",
        Port::Report => "Report",
    }
}

// The name of a file's fault, and the index of a program header.
fn with_index(name: &[u8], k: u16) -> ArrayVec<u8, 40>
    requires { length name.now ≤ 20 }
    ensures { result.items ≡ name.now ++ decimal k }
{
    let mut buffer = Buffer::new();
    joined(name, buffer.format(k).as_bytes(), b"")
}

// The number and the name of a file's fault, and what it tells.
fn elf_text(fault: &ElfFault) -> ArrayVec<u8, 40>
    ensures { result.items ≡ elf_text fault.now }
{
    match fault {
        ElfFault::TooShort => plain(b"1 TooShort"),
        ElfFault::NotElf => plain(b"2 NotElf"),
        ElfFault::NotElf32Little => plain(b"3 NotElf32Little"),
        ElfFault::NotExec => plain(b"4 NotExec"),
        ElfFault::NotRiscv => plain(b"5 NotRiscv"),
        ElfFault::Flags { value } => joined(b"6 Flags ", address_text(*value).as_slice(), b""),
        ElfFault::HeaderSizes => plain(b"7 HeaderSizes"),
        ElfFault::TableOutOfFile => plain(b"8 TableOutOfFile"),
        ElfFault::Interpreter => plain(b"9 Interpreter"),
        ElfFault::SegmentOutOfFile { k } => with_index(b"10 SegmentOutOfFile ", *k),
        ElfFault::BadSegment { k } => with_index(b"11 BadSegment ", *k),
        ElfFault::SharedPage { k } => with_index(b"12 SharedPage ", *k),
        ElfFault::WritableCode { k } => with_index(b"13 WritableCode ", *k),
        ElfFault::OutsideUser { k } => with_index(b"14 OutsideUser ", *k),
        ElfFault::TooManyPages => plain(b"15 TooManyPages"),
        ElfFault::BadEntry => plain(b"16 BadEntry"),
        ElfFault::BadSymbols => plain(b"17 BadSymbols"),
        ElfFault::NoMemory => plain(b"18 NoMemory"),
    }
}

// The line of a call that is not supported.
fn call_line(number: u32, pc: u32) -> ArrayVec<u8, 96>
    ensures { result.items ≡ line_of (Refusal.UnsupportedCall number pc) }
{
    let mut buffer = Buffer::new();
    let tail: ArrayVec<u8, 15> = joined(b" at ", address_text(pc).as_slice(), b"\n");
    joined(
        b"superpin: 6 unsupported call ",
        buffer.format(number).as_bytes(),
        tail.as_slice(),
    )
}

// A number between two texts.
fn numbered(first: &[u8], n: u64, last: &[u8]) -> ArrayVec<u8, 96>
    requires { length first.now + length last.now ≤ 70 }
    ensures { result.items ≡ first.now ++ (decimal n ++ last.now) }
{
    let mut buffer = Buffer::new();
    joined(first, buffer.format(n).as_bytes(), last)
}

// An option as it is written, and the number of `demo`.
fn option_text(option: OptionName) -> &'static str
    ensures value { result.now ≡ option_text option }
    ensures within { length result.now ≤ 9 }
{
    match option {
        OptionName::By => "--by",
        OptionName::Tool => "--tool",
        OptionName::Budget => "--budget",
        OptionName::Limit => "--limit",
        OptionName::Poll => "--poll",
        OptionName::Msec => "--msec",
        OptionName::Records => "--records",
        OptionName::Frames => "--frames",
        OptionName::Workers => "--workers",
        OptionName::N => "N",
    }
}

// Why words are no command.
fn usage_text(kind: UsageKind) -> ArrayVec<u8, 40>
    ensures { result.items ≡ usage_text kind }
{
    match kind {
        UsageKind::NoCommand => plain(b"no command"),
        UsageKind::UnknownCommand => plain(b"unknown command"),
        UsageKind::Form => plain(b"form"),
        UsageKind::BadValue { option } => {
            joined(b"value of ", option_text(option).as_bytes(), b"")
        }
    }
}

/// The line of a refusal, with its line end; `ReportFault` has none. It takes no memory.
pub fn refusal_line(refusal: &Refusal) -> ArrayVec<u8, 96>
    ensures { result.items ≡ line_of refusal.now }
{
    match refusal {
        Refusal::Usage(kind) => joined(b"superpin: 1 usage ", usage_text(*kind).as_slice(), b"\n"),
        Refusal::FileFault => plain(b"superpin: 2 file fault\n"),
        Refusal::FileTooLarge => plain(b"superpin: 3 file too large\n"),
        Refusal::Elf(fault) => joined(b"superpin: 4 elf ", elf_text(fault).as_slice(), b"\n"),
        Refusal::ArgsTooLong { bytes } => numbered(b"superpin: 5 arguments ", *bytes, b"\n"),
        Refusal::UnsupportedCall { number, pc } => call_line(*number, *pc),
        Refusal::BudgetSpent { n } => numbered(b"superpin: 7 budget ", *n, b" spent\n"),
        Refusal::InputFault => plain(b"superpin: 8 input fault\n"),
        Refusal::OutputFault { port } => joined(
            b"superpin: 9 output fault ",
            port_name(*port).as_bytes(),
            b"\n",
        ),
        Refusal::ReportFault => ArrayVec::new(),
        Refusal::NoMemory => plain(b"superpin: 11 no memory\n"),
    }
}
