// A log of records.
ghost use Rattle.std.specs.Prelude.{◌≡◌, ◌≤◌, IfOk};
ghost use Rattle.call_record.specs.Record.{stored_size};

use call_record::{Record, RecordLog, Write};
use std::alloc::{AllocError, Global};
use std::test::Fail;

// The record of a call that stored so many bytes.
fn record(alloc: Global, number: u32, size: usize) -> Result<Record, AllocError>
    requires { size ≤ 100 }
    ensures { IfOk result (λ r. stored_size r ≤ 100) }
{
    let bytes = vec![in alloc; 7; size]?;
    Ok(Record {
        number,
        result: 0,
        writes: vec![in alloc; Write { at: 4096, bytes }]?,
    })
}

#[test]
fn counts_and_cuts(rt: HostRuntime) -> Result<(), Fail> {
    let alloc = rt.alloc();
    let mut log = RecordLog::new(alloc);
    log.push(record(alloc, 63, 3)?)?;
    log.push(record(alloc, 403, 16)?)?;
    assert!(rt; log.len() == 2 && log.bytes() == 19);
    let records = log.cut();
    assert!(rt; records.len() == 2 && records[0].number == 63 && records[1].number == 403);
    let stored = records[1].writes.first().ok_or("no write")?;
    assert!(rt; stored.at == 4096 && stored.bytes.len() == 16);
    assert!(rt; log.len() == 0 && log.bytes() == 0);
    log.push(record(alloc, 63, 5)?)?;
    assert!(rt; log.bytes() == 5);
    Ok(())
}
