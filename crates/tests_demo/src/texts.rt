// The texts of some numbers, beside what is known of their programs.
use demo_run::demo_text;
use std::test::Fail;

// What is known of a text without a run: its first lines, and those from its end line to its number of cuts.
struct Row {
    n: u32,
    first: &'static str,
    end: &'static str,
}

const ROWS: [Row; 2] = [
    // a loop of 1,000 rounds
    Row {
        n: 0,
        first: "demo 0 file 2640\nicount 77014\nbcount 9002 77014\ncache 64 32 accesses ",
        end: "\nend exit 0\ncuts 18\nmatches ",
    },
    // one of 1,295
    Row {
        n: 4_294_967_295,
        first: "demo 4294967295 file 2640\nicount 99729\nbcount 11657 99729\ncache 64 32 accesses ",
        end: "\nend exit 0\ncuts 24\nmatches ",
    },
];

// The whole text of 7. A run has 14 steps and 77 for each of its 1,007 rounds, and is cut at each 4,096th.
const SEVEN: &str = "demo 7 file 2640
icount 77553
bcount 9065 77553
cache 64 32 accesses 11078 hits 1007 misses 10071
end exit 0
cuts 18
matches 971 18 18 18
equal
";

#[test]
fn prints_the_text_of_seven(rt: HostRuntime) -> Result<(), Fail> {
    let text = demo_text(&rt, rt.alloc(), 7).ok().ok_or("no text")?;
    assert!(rt; text.as_slice() == SEVEN.as_bytes());
    Ok(())
}

#[test]
fn prints_the_lines_of_others(rt: HostRuntime) -> Result<(), Fail> {
    for row in &ROWS {
        let text = demo_text(&rt, rt.alloc(), row.n).ok().ok_or("no text")?;
        let text = str::from_utf8(&text).ok().ok_or("no UTF-8")?;
        assert!(rt; text.starts_with(row.first), "first lines of {}", row.n);
        assert!(rt; text.contains(row.end), "end of {}", row.n);
        assert!(rt; text.ends_with("\nequal\n"), "last line of {}", row.n);
    }
    Ok(())
}
