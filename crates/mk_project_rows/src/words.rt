use mk_words::{Request, Task, UsageFault, read_words, wants_one};
use std::alloc::{AllocError, AllocGlobal, Global};
use std::process::Abort;
use std::test::Fail;

// What is wanted where the words say nothing of it: so many workers, this budget, and no bound.
const USUAL: (u32, u64, Option<u64>) = (4, 20_000_000, None);

fn texts_of(alloc: Global, words: &[&str]) -> Result<Vec<String>, AllocError> {
    let mut texts = Vec::new(alloc);
    for word in words {
        texts.push(String::from_str(alloc, word)?)?;
    }
    Ok(texts)
}

// The request has this project and no sizes, or these sizes and no project.
fn assert_task(rt: &impl Abort, request: &Request, project: &str, sizes: &[u32]) {
    match &request.task {
        Task::Project(name) => {
            assert_eq!(rt; name.text(), project);
            assert!(rt; sizes.is_empty());
        }
        Task::Model(found) => {
            assert_eq!(rt; found.numbers(), sizes);
            assert!(rt; project.is_empty());
        }
    }
}

// The words ask for so many workers, this budget, this bound, and this project or these sizes.
fn assert_request(
    rt: &(impl Abort + AllocGlobal),
    words: &[&str],
    wanted: (u32, u64, Option<u64>),
    project: &str,
    sizes: &[u32],
) -> Result<(), Fail> {
    let texts = texts_of(rt.alloc(), words)?;
    match read_words(rt.alloc(), &texts) {
        Ok(request) => {
            assert_eq!(rt;
                (request.workers, request.budget, request.upto),
                wanted,
                "{words:?}"
            );
            assert_task(rt, &request, project, sizes);
        }
        Err(fault) => assert!(rt; false, "{words:?}: {fault:?}"),
    }
    assert_eq!(rt; wants_one(rt.alloc(), &texts)?, wanted.0 == 1, "{words:?}");
    Ok(())
}

// The words of each row are not in the language.
fn assert_wrong(rt: &(impl Abort + AllocGlobal), rows: &[&[&str]]) -> Result<(), Fail> {
    for words in rows {
        let texts = texts_of(rt.alloc(), words)?;
        match read_words(rt.alloc(), &texts) {
            Ok(_) => assert!(rt; false, "{words:?}"),
            Err(fault) => assert_eq!(rt; fault, UsageFault::Words, "{words:?}"),
        }
        assert!(rt; wants_one(rt.alloc(), &texts)?);
    }
    Ok(())
}

#[test]
fn projects_are_asked_for(rt: HostRuntime) -> Result<(), Fail> {
    let rows = [
        (["P"].as_slice(), USUAL, "P"),
        (["P", "--"].as_slice(), USUAL, "P"),
        (["-"].as_slice(), USUAL, "-"),
        (
            ["--workers=03", "--", "-P"].as_slice(),
            (3, 20_000_000, None),
            "-P",
        ),
        (["--", "--workers=3"].as_slice(), USUAL, "--workers=3"),
        (["--", "--"].as_slice(), USUAL, "--"),
        (["help"].as_slice(), USUAL, "help"),
        (["P=1"].as_slice(), USUAL, "P=1"),
        (
            ["--workers", "1", "P"].as_slice(),
            (1, 20_000_000, None),
            "P",
        ),
        (
            ["P", "--workers", "64"].as_slice(),
            (64, 20_000_000, None),
            "P",
        ),
        (
            ["--budget=0", "P", "--upto", "0"].as_slice(),
            (4, 0, Some(0)),
            "P",
        ),
        (
            ["--budget", "100000000", "P"].as_slice(),
            (4, 100_000_000, None),
            "P",
        ),
        (
            ["P", "--upto=18446744073709551615"].as_slice(),
            (4, 20_000_000, Some(18_446_744_073_709_551_615)),
            "P",
        ),
    ];
    for (words, wanted, project) in rows {
        assert_request(&rt, words, wanted, project, &[])?;
    }
    Ok(())
}

#[test]
fn models_are_asked_for(rt: HostRuntime) -> Result<(), Fail> {
    assert_request(
        &rt,
        &["--model", "2x03", "--budget", "7"],
        (4, 7, None),
        "",
        &[2, 3],
    )?;
    assert_request(&rt, &["--model=16x16x2"], USUAL, "", &[16, 16, 2])?;
    assert_request(&rt, &["--model", "8x8x8", "--"], USUAL, "", &[8, 8, 8])?;
    assert_request(
        &rt,
        &["--upto=4", "--model=3x3x3"],
        (4, 20_000_000, Some(4)),
        "",
        &[3, 3, 3],
    )
}

#[test]
fn nothing_to_do_is_refused(rt: HostRuntime) -> Result<(), Fail> {
    let rows: [&[&str]; 6] = [
        &[],
        &[""],
        &["--"],
        &["--", ""],
        &["P", "Q"],
        &["P", "--", "Q"],
    ];
    assert_wrong(&rt, &rows)
}

#[test]
fn other_options_are_refused(rt: HostRuntime) -> Result<(), Fail> {
    let rows: [&[&str]; 10] = [
        &["-P"],
        &["--help"],
        &["-h", "P"],
        &["--version"],
        &["-V", "P"],
        &["-\u{fc}", "P"],
        &["workers", "1", "P"],
        &["--worker", "1", "P"],
        &["--workersx=1", "P"],
        &["--=1", "P"],
    ];
    assert_wrong(&rt, &rows)
}

#[test]
fn options_without_a_value_or_twice_are_refused(rt: HostRuntime) -> Result<(), Fail> {
    let rows: [&[&str]; 9] = [
        &["P", "--workers"],
        &["--workers", "1", "--workers", "1", "P"],
        &["--budget=1", "--budget", "1", "P"],
        &["--workers", "--budget=1", "P"],
        &["--workers", "--", "P"],
        &["P", "--workers", "--"],
        &["--workers=--", "P"],
        &["--workers==1", "P"],
        &["--workers", "-1", "P"],
    ];
    assert_wrong(&rt, &rows)
}

#[test]
fn other_numbers_are_refused(rt: HostRuntime) -> Result<(), Fail> {
    let rows: [&[&str]; 10] = [
        &["--workers=-1", "P"],
        &["--workers=+1", "P"],
        &["--workers=", "P"],
        &["--workers=0", "P"],
        &["--workers=65", "P"],
        &["--workers=18446744073709551617", "P"],
        &["--budget", "100000001", "P"],
        &["--budget", "1 ", "P"],
        &["--upto", "18446744073709551616", "P"],
        &["--upto", "-1", "P"],
    ];
    assert_wrong(&rt, &rows)
}

#[test]
fn other_models_are_refused(rt: HostRuntime) -> Result<(), Fail> {
    let rows: [&[&str]; 12] = [
        &["--model", "2x2", "P"],
        &["--model", "2x2", "--model", "2x2"],
        &["--model", "4"],
        &["--model", "2x2x2x2"],
        &["--model", "2X2"],
        &["--model", "2x"],
        &["--model", "x2x2"],
        &["--model", "1x2"],
        &["--model", "17x2"],
        &["--model", "9x9x7"],
        &["--model", "3x3x57"],
        &["--model", "16x16x3"],
    ];
    assert_wrong(&rt, &rows)
}
