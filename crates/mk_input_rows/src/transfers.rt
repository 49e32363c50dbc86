use crate::calls::{MANY, assert_load, assert_put, assert_started, folder_of};
use mk_desk::{Channel, DeskFault, LoadFault, say_all};
use std::alloc::AllocGlobal;
use std::process::Abort;
use std::test::Fail;

const FILES: [(&str, &str); 2] = [("four", "1234"), ("five", "12345")];

#[test]
fn loads_up_to_the_limit(rt: HostRuntime) -> Result<(), Fail> {
    let mut folder = folder_of(rt.alloc(), &FILES, 3, 0)?;
    for (name, wanted) in [
        ("four", Ok(Some("1234"))),
        ("five", Err(LoadFault::FileSize { read: 5 })),
        ("six", Ok(None)),
    ] {
        assert_load(&rt, &mut folder, name, 4, wanted);
    }
    let mut folder = folder_of(rt.alloc(), &FILES, 3, 2)?;
    assert_load(&rt, &mut folder, "four", 4, Err(LoadFault::Failed));
    Ok(())
}

// Loads of a file of 65,540 bytes from a folder of large chunks, each of which ends by the last of so many calls.
#[test]
fn load_asks_for_a_buffer_at_a_time(rt: HostRuntime) -> Result<(), Fail> {
    let bytes = Vec::from_elem(rt.alloc(), b'7', 65_540)?;
    let long = str::from_utf8(&bytes).ok().ok_or("no text")?;
    for (limit, wanted, calls) in [
        (65_540, Ok(Some(long)), 4),
        (65_539, Err(LoadFault::FileSize { read: 65_540 }), 3),
        (65_535, Err(LoadFault::FileSize { read: 65_536 }), 2),
    ] {
        let mut folder = folder_of(rt.alloc(), &[("long", long)], MANY, 0)?;
        assert_load(&rt, &mut folder, "long", limit, wanted);
        assert_eq!(rt; folder.calls(), calls, "limit {limit}");
    }
    Ok(())
}

// Loads five bytes, which takes so many calls, with each of them failing in turn.
fn load_with_faults(rt: &(impl Abort + AllocGlobal), chunk: usize, calls: u64) -> Result<(), Fail> {
    for failing in 1..=calls {
        let mut folder = folder_of(rt.alloc(), &FILES, chunk, failing)?;
        assert_load(rt, &mut folder, "five", 5, Err(LoadFault::Failed));
        assert_eq!(rt; folder.faults(), 1, "call {failing} fails");
    }
    let mut folder = folder_of(rt.alloc(), &FILES, chunk, 0)?;
    assert_load(rt, &mut folder, "five", 5, Ok(Some("12345")));
    assert_eq!(rt; folder.calls(), calls);
    Ok(())
}

#[test]
fn load_fails_at_each_call(rt: HostRuntime) -> Result<(), Fail> {
    load_with_faults(&rt, 1, 7)?;
    load_with_faults(&rt, MANY, 3)
}

// Puts "abc", where this write fails.
fn assert_made(
    rt: &(impl Abort + AllocGlobal),
    chunk: usize,
    failing: u64,
    front: &str,
    wanted: Result<(), DeskFault>,
) -> Result<(), Fail> {
    let mut folder = folder_of(rt.alloc(), &FILES, chunk, failing.saturating_add(1))?;
    assert_started(rt, &mut folder, "new");
    assert_put(rt, &mut folder, "abc", wanted);
    assert_eq!(rt; folder.made(), front.as_bytes());
    Ok(())
}

// Says "abc", where this call of `say` fails.
fn assert_said(
    rt: &(impl Abort + AllocGlobal),
    chunk: usize,
    failing: u64,
    front: &str,
    wanted: Result<(), DeskFault>,
) -> Result<(), Fail> {
    let mut folder = folder_of(rt.alloc(), &FILES, chunk, failing)?;
    let said = say_all(&mut folder, Channel::Err, b"abc");
    assert_eq!(rt; said, wanted, "call {failing} fails");
    assert_eq!(rt; folder.said(Channel::Err), front.as_bytes());
    assert!(rt; folder.said(Channel::Out).is_empty());
    Ok(())
}

#[test]
fn a_refused_piece_leaves_its_front(rt: HostRuntime) -> Result<(), Fail> {
    let failed = Err(DeskFault::Failed);
    for (chunk, failing, front, wanted) in [
        (1, 1, "", failed),
        (1, 2, "a", failed),
        (1, 3, "ab", failed),
        (1, 4, "abc", Ok(())),
        (MANY, 1, "", failed),
        (MANY, 2, "abc", Ok(())),
    ] {
        assert_made(&rt, chunk, failing, front, wanted)?;
        assert_said(&rt, chunk, failing, front, wanted)?;
    }
    Ok(())
}

#[test]
fn an_empty_piece_takes_no_call(rt: HostRuntime) -> Result<(), Fail> {
    let mut folder = folder_of(rt.alloc(), &FILES, 1, 1)?;
    say_all(&mut folder, Channel::Out, b"")?;
    assert_eq!(rt; folder.calls(), 0);
    Ok(())
}
