// Each call on the file, the standard output and the port of reports fails in turn, and then the one behind the last.
use crate::run::{BY_WINDOWS, SERIALLY, holds};
use hostile_rows::{OUT_AND_REPORT_FAIL, file_fault, out_fault, report_fault};
use std::test::Fail;

#[test]
fn the_file_fails(rt: HostRuntime) -> Result<(), Fail> {
    for before in 0..130 {
        let row = file_fault(before);
        assert!(rt; holds(&rt, rt.alloc(), &SERIALLY, &row)?, "behind {before}");
    }
    Ok(())
}

#[test]
fn the_output_fails(rt: HostRuntime) -> Result<(), Fail> {
    for before in 0..7 {
        let row = out_fault(before, &[], &[]);
        assert!(rt; holds(&rt, rt.alloc(), &SERIALLY, &row)?, "behind {before}");
        let row = out_fault(before, &[], &[1, 2, 3, 4, 5, 6, 7, 8]);
        assert!(rt;
            holds(&rt, rt.alloc(), &BY_WINDOWS, &row)?,
            "cut, behind {before}"
        );
    }
    Ok(())
}

#[test]
fn the_report_fails(rt: HostRuntime) -> Result<(), Fail> {
    for before in 0..21 {
        let row = report_fault(before);
        assert!(rt; holds(&rt, rt.alloc(), &SERIALLY, &row)?, "behind {before}");
    }
    Ok(())
}

#[test]
fn two_outputs_fail(rt: HostRuntime) -> Result<(), Fail> {
    assert!(rt; holds(&rt, rt.alloc(), &SERIALLY, &OUT_AND_REPORT_FAIL)?);
    assert!(rt; holds(&rt, rt.alloc(), &BY_WINDOWS, &OUT_AND_REPORT_FAIL)?);
    Ok(())
}
