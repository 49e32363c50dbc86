use crate::calls::{assert_end, assert_file, assert_put, assert_started, assert_write, folder_of};
use mk_desk::{Channel, DeskFault, Folder, Found, MemoryFolder, SureFolder, say_all};
use std::collections::BTreeMap;
use std::process::Abort;
use std::test::Fail;

const FIVE: (&str, &str) = ("five", "12345");

#[test]
fn missing_name_is_absent(rt: HostRuntime) -> Result<(), Fail> {
    let mut folder = folder_of(rt.alloc(), &[FIVE], 1, 0)?;
    for (name, found) in [("six", Found::Absent), ("five", Found::Here)] {
        assert_eq!(rt; folder.start_read(name), Ok(found), "{name}");
    }
    Ok(())
}

#[test]
fn made_file_appears_at_the_end(rt: HostRuntime) -> Result<(), Fail> {
    let mut folder = folder_of(rt.alloc(), &[FIVE], 1, 0)?;
    assert_started(&rt, &mut folder, "new");
    for piece in ["ab", "b"] {
        assert_write(&rt, &mut folder, piece, Ok(1));
    }
    assert_file(&rt, &folder, "new", None);
    assert_end(&rt, &mut folder, Ok(()));
    for (name, text) in [("new", "ab"), FIVE] {
        assert_file(&rt, &folder, name, Some(text));
    }
    assert_eq!(rt; folder.len(), 2);
    assert_eq!(rt; folder.calls(), 4);
    Ok(())
}

#[test]
fn named_call_fails_alone(rt: HostRuntime) -> Result<(), Fail> {
    let mut folder = folder_of(rt.alloc(), &[FIVE], 2, 3)?;
    assert_started(&rt, &mut folder, "five");
    for (piece, wanted, made, faults) in [
        ("ab", Ok(2), "ab", 0),
        ("c", Err(DeskFault::Failed), "ab", 1),
        ("c", Ok(1), "abc", 1),
    ] {
        assert_write(&rt, &mut folder, piece, wanted);
        assert_eq!(rt; folder.made_name(), "five");
        assert_eq!(rt; folder.made(), made.as_bytes());
        assert_eq!(rt; folder.faults(), faults);
        assert_file(&rt, &folder, "five", Some("12345"));
    }
    assert_end(&rt, &mut folder, Ok(()));
    assert_file(&rt, &folder, "five", Some("abc"));
    Ok(())
}

// So much is said on each channel.
fn assert_said(rt: &impl Abort, folder: &MemoryFolder, out: &str, errors: &str) {
    assert_eq!(rt; folder.said(Channel::Out), out.as_bytes());
    assert_eq!(rt; folder.said(Channel::Err), errors.as_bytes());
}

#[test]
fn channels_are_apart(rt: HostRuntime) -> Result<(), Fail> {
    let mut folder = folder_of(rt.alloc(), &[FIVE], 8, 2)?;
    for (channel, piece, wanted, out, errors) in [
        (Channel::Out, "out", Ok(3), "out", ""),
        (Channel::Out, "lost", Err(DeskFault::Failed), "out", ""),
        (Channel::Err, "err", Ok(3), "out", "err"),
    ] {
        assert!(rt; !piece.is_empty());
        assert_eq!(rt; folder.say(channel, piece.as_bytes()), wanted, "{piece}");
        assert_said(&rt, &folder, out, errors);
    }
    Ok(())
}

#[test]
fn a_folder_that_is_sure_makes_a_file_and_says_a_piece(rt: HostRuntime) -> Result<(), Fail> {
    let mut folder = SureFolder::new(rt.alloc(), BTreeMap::new(rt.alloc()));
    assert_started(&rt, &mut folder, "a");
    assert_put(&rt, &mut folder, "xy", Ok(()));
    assert_eq!(rt; folder.file("a"), None);
    assert_end(&rt, &mut folder, Ok(()));
    say_all(&mut folder, Channel::Out, b"z")?;
    assert_eq!(rt; folder.len(), 1);
    assert_eq!(rt; folder.file("a"), Some(b"xy".as_slice()));
    assert_eq!(rt; folder.said(Channel::Out), b"z".as_slice());
    assert_eq!(rt; folder.said(Channel::Err), b"".as_slice());
    Ok(())
}
