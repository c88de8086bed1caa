// Two slices of a live run that wait for each other, so that the run ends in time only where both are run at once.
use crate::call::holds;
use crate::rows::COUNTS;
use sp_host::Gate;
use std::sync::atomic::{AtomicBool, Ordering};
use std::test::Fail;
use std::thread;

// Holds each of the first two slices up until the other one was claimed, for some turns at most.
#[derive(Drop)]
struct Meeting {
    came: [AtomicBool; 2],
    met: [AtomicBool; 2],
}

impl Gate for Meeting {
    fn claimed(&self, slice: u64) {
        if slice < 2 {
            self.came[slice as usize].store(true, Ordering::Relaxed);
        }
    }

    fn before(&self, slice: u64) {
        if slice >= 2 {
            return;
        }
        for _turn in 0..1_000_000 {
            if self.came[1 - slice as usize].load(Ordering::Relaxed) {
                self.met[slice as usize].store(true, Ordering::Relaxed);
                return;
            }
            thread::yield_now();
        }
    }
}

#[test]
fn two_slices_meet(rt: HostRuntime) -> Result<(), Fail> {
    let meeting = Meeting {
        came: [AtomicBool::new(false), AtomicBool::new(false)],
        met: [AtomicBool::new(false), AtomicBool::new(false)],
    };
    assert!(rt; holds(&rt, rt.alloc(), &COUNTS, &meeting)?);
    assert!(rt; meeting.met[0].load(Ordering::Relaxed));
    assert!(rt; meeting.met[1].load(Ordering::Relaxed));
    Ok(())
}
