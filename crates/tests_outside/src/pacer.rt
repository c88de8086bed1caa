// Pacers give the answers of a list, or grant each so many asks.
use crate::hosts::crosses;
use sp_host::{EveryPacer, ListPacer, Pacer};
use std::test::Fail;

#[test]
fn gives_its_answers(rt: HostRuntime) -> Result<(), Fail> {
    let mut pacer = crosses(ListPacer::new([false, true].to_vec(rt.alloc())?));
    for (k, answer) in [false, true, false, false].iter().enumerate() {
        pacer.period(10);
        assert!(rt; pacer.due() == *answer, "answer {k}");
    }
    Ok(())
}

// A pacer that grants each so many asks, how often it is asked, and the asks that it grants, the
// first of them with number 1.
struct Turns {
    every: u64,
    asks: u64,
    granted: &'static [u64],
}

const TURNS: [Turns; 3] = [
    Turns {
        every: 1,
        asks: 3,
        granted: &[1, 2, 3],
    },
    Turns {
        every: 3,
        asks: 8,
        granted: &[3, 6],
    },
    Turns {
        every: 64,
        asks: 192,
        granted: &[64, 128, 192],
    },
];

#[test]
fn grants_in_turn(rt: HostRuntime) {
    for (k, row) in TURNS.iter().enumerate() {
        let mut pacer = crosses(EveryPacer::new(row.every.max(1)));
        pacer.period(10);
        for ask in 0..row.asks {
            let granted = row.granted.contains(&(ask + 1));
            assert!(rt; pacer.due() == granted, "row {k}, ask {ask}");
        }
    }
}
