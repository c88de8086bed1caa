// A pool of two frames.
use frame_pool::Pool;
use std::test::Fail;

#[test]
fn hands_out_two_frames(rt: HostRuntime) -> Result<(), Fail> {
    let mut pool = Pool::new(rt.alloc(), 2)?;
    let first = pool.take().expect(&rt, "a first frame");
    let second = pool.take().expect(&rt, "a second frame");
    assert!(rt; pool.take().is_none());
    pool.set(&second, 4095, &[7]);
    assert!(rt; pool.bytes(&second)[4095] == 7 && pool.bytes(&first)[4095] == 0);
    pool.give(second);
    let again = pool.take().expect(&rt, "the frame that was given back");
    assert!(rt; pool.bytes(&again) == [0; 4096].as_slice());
    pool.give_all();
    assert!(rt; pool.free() == 2);
    Ok(())
}

#[test]
fn takes_copies(rt: HostRuntime) -> Result<(), Fail> {
    let mut page = [5; 4096];
    page[0] = 1;
    page[4095] = 9;
    let mut pool = Pool::new(rt.alloc(), 2)?;
    let first = pool.take_copy(&[3; 4096]).expect(&rt, "a new frame");
    let second = pool.take_copy(&page).expect(&rt, "a second frame");
    assert!(rt; pool.take_copy(&page).is_none());
    assert!(rt; pool.bytes(&first) == [3; 4096].as_slice());
    assert!(rt; pool.bytes(&second) == page.as_slice());
    pool.give(first);
    let again = pool
        .take_copy(&page)
        .expect(&rt, "the frame that was given back");
    assert!(rt; pool.bytes(&again) == page.as_slice());
    pool.give_all();
    Ok(())
}
