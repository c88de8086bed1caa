// A hundred freezes and forks, beside a plain list of bytes.
use crate::writes::put;
use cow_pages::{Pages, Shared};
use std::test::Fail;

// Bytes that the chain changes, in pages of three chunks of 1,024.
const PLACES: [(u32, u32); 6] = [
    (16, 0),
    (16, 4095),
    (17, 8),
    (262_144, 0),
    (262_145, 9),
    (524_287, 4095),
];

// A frozen state, and what each of the places held.
#[derive(Drop)]
struct Stand {
    shared: Shared,
    bytes: [u8; 6],
}

// The k-th change: a page is dropped, or a byte is written.
fn change(pages: &mut Pages, bytes: &mut [u8; 6], k: usize) -> bool {
    let i = k % 6;
    let (page, at) = PLACES[i];
    if k % 7 != 6 {
        bytes[i] = (k % 251) as u8 + 1;
        return put(pages, page, at, bytes[i]);
    }
    pages.drop_page(page);
    for j in 0..6 {
        if PLACES[j].0 == page {
            bytes[j] = 0;
        }
    }
    true
}

fn holds(stand: &Stand) -> bool {
    PLACES.iter().zip(&stand.bytes).all(|(place, byte)| stand.shared.read(place.0, place.1)
        == *byte)
}

#[test]
fn a_hundred_freezes_and_forks(rt: HostRuntime) -> Result<(), Fail> {
    let alloc = rt.alloc();
    let mut pages = Pages::empty(alloc, 3)?;
    let mut bytes = [0; 6];
    let mut stands = Vec::new(alloc);
    for k in 0..100 {
        assert!(rt;
            change(&mut pages, &mut bytes, 2 * k) && change(&mut pages, &mut bytes, 2 * k + 1),
            "change {k}"
        );
        let shared = pages.freeze()?;
        if k % 3 == 2 {
            pages = Pages::fork(alloc, &shared, 2)?;
        }
        stands.push(Stand { shared, bytes })?;
    }
    for (k, stand) in stands.iter().enumerate() {
        assert!(rt; holds(stand), "state {k}");
    }
    Ok(())
}
