use crate::calls::{assert_end, assert_load, assert_put, assert_started, assert_write};
use mk_desk::{DeskFault, Folder, Found, LoadFault, RealFolder};
use std::alloc::{AllocError, AllocGlobal, Global};
use std::fs;
use std::io::{Eprint, Print};
use std::process::Abort;
use std::rt::Files;
use std::test::Fail;

// The whole text of a file.
fn text_of(rt: &(impl AllocGlobal + Files), name: &str) -> Result<String, Fail> {
    Ok(fs::read_to_string(rt, name)?)
}

#[test]
fn a_real_file_is_made_and_read(rt: HostRuntime) -> Result<(), Fail> {
    let name = "real_folder_made.txt";
    fs::write(&rt, name, "old")?;
    let mut folder = RealFolder::new(rt.alloc(), &rt);
    assert_started(&rt, &mut folder, name);
    assert_put(&rt, &mut folder, "new", Ok(()));
    assert_load(&rt, &mut folder, name, 10, Ok(Some("old")));
    assert_end(&rt, &mut folder, Ok(()));
    assert_load(&rt, &mut folder, name, 10, Ok(Some("new")));
    fs::remove_file(&rt, name)?;
    assert_load(&rt, &mut folder, name, 10, Ok(None));
    assert_load(&rt, &mut folder, ".", 10, Err(LoadFault::Failed));
    Ok(())
}

// The name beside the place, of this number.
fn part_of(alloc: Global, number: u64) -> Result<String, AllocError> {
    if number > 1 {
        format!(in alloc; "real_folder_part.txt.part{number}")
    } else {
        format!(in alloc; "real_folder_part.txt.part")
    }
}

// With files of the first so many names beside the place, a file is made under the next.
fn assert_part<R: Abort + AllocGlobal + Files + Print + Eprint>(
    rt: &R,
    taken: u64,
) -> Result<(), Fail> {
    let name = "real_folder_part.txt";
    let part = part_of(rt.alloc(), taken.saturating_add(1))?;
    let mut folder = RealFolder::new(rt.alloc(), rt);
    assert_started(rt, &mut folder, name);
    assert!(rt; !fs::exists(rt, part.as_str())?);
    assert_put(rt, &mut folder, "new", Ok(()));
    assert_eq!(rt; text_of(rt, part.as_str())?.as_str(), "new");
    assert_end(rt, &mut folder, Ok(()));
    assert_eq!(rt; text_of(rt, name)?.as_str(), "new");
    assert!(rt; !fs::exists(rt, part.as_str())?);
    fs::remove_file(rt, name)?;
    Ok(())
}

// Beside a place there are a hundred names. The first that no file has is taken, and the others' files are left as they are.
#[test]
fn names_that_are_taken_are_left(rt: HostRuntime) -> Result<(), Fail> {
    for number in 1..=100 {
        assert_part(&rt, number - 1)?;
        fs::write(&rt, part_of(rt.alloc(), number)?.as_str(), "older")?;
    }
    let mut folder = RealFolder::new(rt.alloc(), &rt);
    assert_started(&rt, &mut folder, "real_folder_part.txt");
    assert_write(&rt, &mut folder, "new", Err(DeskFault::Failed));
    assert_end(&rt, &mut folder, Err(DeskFault::Failed));
    assert!(rt; !fs::exists(&rt, "real_folder_part.txt")?);
    assert!(rt; !fs::exists(&rt, "real_folder_part.txt.part101")?);
    remove_parts(&rt)
}

// Removes the hundred files, which have their text still.
fn remove_parts(rt: &(impl Abort + AllocGlobal + Files)) -> Result<(), Fail> {
    for number in 1..=100 {
        let part = part_of(rt.alloc(), number)?;
        assert_eq!(rt; text_of(rt, part.as_str())?.as_str(), "older");
        fs::remove_file(rt, part.as_str())?;
    }
    Ok(())
}

#[test]
fn an_empty_file_is_made_at_its_end(rt: HostRuntime) -> Result<(), Fail> {
    let name = "real_folder_empty.txt";
    let mut folder = RealFolder::new(rt.alloc(), &rt);
    assert_started(&rt, &mut folder, name);
    assert!(rt; !fs::exists(&rt, "real_folder_empty.txt.part")?);
    assert_end(&rt, &mut folder, Ok(()));
    assert_eq!(rt; text_of(&rt, name)?.as_str(), "");
    fs::remove_file(&rt, name)?;
    Ok(())
}

#[test]
fn a_path_through_a_file_fails(rt: HostRuntime) -> Result<(), Fail> {
    fs::write(&rt, "real_folder_file.txt", "old")?;
    let below = "real_folder_file.txt/below";
    let mut folder = RealFolder::new(rt.alloc(), &rt);
    assert_eq!(rt; folder.start_read(below), Err(DeskFault::Failed));
    assert_eq!(rt;
        folder.start_read("real_folder_none/below"),
        Ok(Found::Absent)
    );
    assert_started(&rt, &mut folder, below);
    assert_write(&rt, &mut folder, "new", Err(DeskFault::Failed));
    assert_write(&rt, &mut folder, "new", Err(DeskFault::Failed));
    assert_end(&rt, &mut folder, Err(DeskFault::Failed));
    fs::remove_file(&rt, "real_folder_file.txt")?;
    Ok(())
}

#[test]
fn a_place_that_is_a_folder_fails(rt: HostRuntime) -> Result<(), Fail> {
    fs::create_dir(&rt, "real_folder_dir")?;
    fs::write(&rt, "real_folder_dir/file", "kept")?;
    let mut folder = RealFolder::new(rt.alloc(), &rt);
    assert_started(&rt, &mut folder, "real_folder_dir");
    assert_put(&rt, &mut folder, "new", Ok(()));
    assert_end(&rt, &mut folder, Err(DeskFault::Failed));
    assert!(rt; !fs::exists(&rt, "real_folder_dir.part")?);
    fs::remove_dir_all(&rt, "real_folder_dir")?;
    Ok(())
}
