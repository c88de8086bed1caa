// The text of a file's code. Each line is the manual's table by hand.
ghost use Rattle.std.specs.Prelude.{◌≡◌, ◌<◌, IfOk};

use crate::outside::{Outside, Wanted, are, has_no_line, is_wanted, outside_of, run};
use elf_load::ElfFault;
use sample_files::{EXIT_7, one_segment};
use sp_host::Port;
use std::alloc::{AllocError, Global};
use std::test::Fail;
use std::thread::Threads;
use superpin_top::Refusal;

const VIEW: [&str; 2] = ["view", "f"];

const EXIT_7_TEXT: &str = "0x00010054 05d00893 addi x17,x0,93\n\
0x00010058 00700513 addi x10,x0,7\n\
0x0001005c 00000073 ecall\n";

// Two executable segments. That at 0x11000 has a word of ones, `addi`, a word of no instruction, `jalr` and `ecall`, of
// which the last is the entry, and four bytes of zeros behind the file's; the function `a`, a byte 1, `b` starts at the
// second word, and `odd` within the third. That at 0x20000 has `addi`, a word of zeros, and two bytes of a third word.
const TWO_OF_CODE: [u32; 82] = [
    0x464c457f, 0x00010101, 0x00000000, 0x00000000, 0x00f30002, 0x00000001, 0x00011010, 0x00000034,
    0x000000d0, 0x00000000, 0x00200034, 0x00280002, 0x00000003, 0x00000001, 0x00000074, 0x00011000,
    0x00011000, 0x00000014, 0x00000018, 0x00000005, 0x00000001, 0x00000001, 0x00000088, 0x00020000,
    0x00020000, 0x0000000a, 0x0000000a, 0x00000005, 0x00000001, 0xffffffff, 0x00000013, 0x0000000b,
    0x00008067, 0x00000073, 0x00500293, 0x00000000, 0x00000013, 0x00000000, 0x00000000, 0x00000000,
    0x00000000, 0x00000001, 0x00011004, 0x00000000, 0x00010012, 0x00000005, 0x00011009, 0x00000000,
    0x00010012, 0x62016100, 0x64646f00, 0x00000000, 0x00000000, 0x00000000, 0x00000000, 0x00000000,
    0x00000000, 0x00000000, 0x00000000, 0x00000000, 0x00000000, 0x00000000, 0x00000000, 0x00000002,
    0x00000000, 0x00000000, 0x00000094, 0x00000030, 0x00000002, 0x00000000, 0x00000000, 0x00000010,
    0x00000000, 0x00000003, 0x00000000, 0x00000000, 0x000000c4, 0x00000009, 0x00000000, 0x00000000,
    0x00000000, 0x00000000,
];

const TWO_OF_CODE_TEXT: &str = "routine 0x00011004 a?b\n\
0x00011004 00000013 addi x0,x0,0\n\
0x00011008 0000000b ?\n\
0x0001100c 00008067 jalr x0,0(x1)\n\
0x00011010 00000073 ecall\n\
0x00020000 00500293 addi x5,x0,5\n\
0x00020004 00000000 ?\n";

// The bytes of a file that is made of words.
fn bytes_of(alloc: Global, words: &[u32]) -> Result<Vec<u8>, AllocError> {
    let mut bytes = Vec::new(alloc);
    for word in words {
        bytes.extend_from_slice(&word.to_le_bytes())?;
    }
    Ok(bytes)
}

// Whether `view` answers so, and leaves these bytes on the standard output and on the port of reports alone.
fn leaves<R: Threads + Sync>(
    rt: &R,
    alloc: Global,
    outside: Outside,
    answer: Wanted,
    out: &[u8],
    report: &str,
) -> Result<bool, Fail>
    requires { 0 < outside.plan.most }
{
    let done = run(rt, alloc, &VIEW, outside)?;
    Ok(
        is_wanted(&done.answer, answer)
            && has_no_line(&done.answer)
            && are(&done.out, out)
            && done.err.is_empty()
            && are(&done.report, report.as_bytes()),
    )
}

#[test]
fn code_is_shown(rt: HostRuntime) -> Result<(), Fail> {
    let alloc = rt.alloc();
    let one = outside_of(alloc, one_segment(alloc, &EXIT_7)?, 65_536);
    assert!(rt;
        leaves(
            &rt,
            alloc,
            one,
            Wanted::Status(0),
            EXIT_7_TEXT.as_bytes(),
            ""
        )?
    );
    let two = outside_of(alloc, bytes_of(alloc, &TWO_OF_CODE)?, 65_536);
    assert!(rt;
        leaves(
            &rt,
            alloc,
            two,
            Wanted::Status(0),
            TWO_OF_CODE_TEXT.as_bytes(),
            ""
        )?
    );
    Ok(())
}

#[test]
fn view_is_refused(rt: HostRuntime) -> Result<(), Fail> {
    let alloc = rt.alloc();
    let script = outside_of(alloc, b"#!/bin/sh\n".to_vec(alloc)?, 65_536);
    let short = Wanted::Refusal(Refusal::Elf(ElfFault::TooShort));
    assert!(rt;
        leaves(
            &rt,
            alloc,
            script,
            short,
            b"",
            "superpin: 4 elf 1 TooShort\n"
        )?
    );
    let mut unread = outside_of(alloc, one_segment(alloc, &EXIT_7)?, 65_536);
    unread.plan.file.push(1)?;
    let fault = Wanted::Refusal(Refusal::FileFault);
    assert!(rt; leaves(&rt, alloc, unread, fault, b"", "superpin: 2 file fault\n")?);
    Ok(())
}

// Each call moves one byte.
fn with_failing_write(alloc: Global, call: u64) -> Result<Outside, Fail>
    ensures { IfOk result (λ outside. outside.plan.most ≡ 1) }
{
    let mut outside = outside_of(alloc, one_segment(alloc, &EXIT_7)?, 1);
    outside.plan.out.push(call)?;
    Ok(outside)
}

#[test]
fn a_write_fails(rt: HostRuntime) -> Result<(), Fail> {
    let alloc = rt.alloc();
    let fault = Wanted::Refusal(Refusal::OutputFault { port: Port::Out });
    let third = with_failing_write(alloc, 3)?;
    assert!(rt;
        leaves(
            &rt,
            alloc,
            third,
            fault,
            b"0x",
            "superpin: 9 output fault Out\n"
        )?
    );
    let last = with_failing_write(alloc, 95)?;
    let all_but_one = &EXIT_7_TEXT.as_bytes()[..94];
    assert!(rt;
        leaves(
            &rt,
            alloc,
            last,
            fault,
            all_but_one,
            "superpin: 9 output fault Out\n"
        )?
    );
    let after = with_failing_write(alloc, 96)?;
    assert!(rt;
        leaves(
            &rt,
            alloc,
            after,
            Wanted::Status(0),
            EXIT_7_TEXT.as_bytes(),
            ""
        )?
    );
    Ok(())
}
