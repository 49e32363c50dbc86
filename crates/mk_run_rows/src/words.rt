use crate::runs::{MANY, assert_run};
use mk_run::Status;
use std::test::Fail;

const USAGE: &str =
    "usage: markov [--workers N] [--budget N] [--upto W] PROJECT or markov [--workers N] [--budget N] [--upto W] --model RxC[xD]\n";

// Words with the files of the project that they ask for; or, where the last is empty, words that ask for nothing: then saying so is
// the only call.
#[test]
fn words_ask_for_a_project_or_nothing(rt: HostRuntime) -> Result<(), Fail> {
    let rows = [
        (["P"].as_slice(), "P.lat", "P.mar"),
        (["P", "--"].as_slice(), "P.lat", "P.mar"),
        (["--", "P"].as_slice(), "P.lat", "P.mar"),
        (["--", "-P"].as_slice(), "-P.lat", "-P.mar"),
        (["-"].as_slice(), "-.lat", "-.mar"),
        (["--workers=03", "--", "-P"].as_slice(), "-P.lat", "-P.mar"),
        (
            ["P", "--budget", "0", "--upto=2"].as_slice(),
            "P.lat",
            "P.mar",
        ),
        ([].as_slice(), "P.lat", ""),
        (["P", "Q"].as_slice(), "P.lat", ""),
        ([""].as_slice(), ".lat", ""),
        (["--help"].as_slice(), "P.lat", ""),
        (["-x"].as_slice(), "-x.lat", ""),
        (["-x", "P"].as_slice(), "P.lat", ""),
        (["--"].as_slice(), "P.lat", ""),
        (["--", ""].as_slice(), ".lat", ""),
        (["--", "P", "Q"].as_slice(), "P.lat", ""),
        (["--workers", "0", "P"].as_slice(), "P.lat", ""),
        (["--workers", "65", "P"].as_slice(), "P.lat", ""),
        (["--budget", "100000001", "P"].as_slice(), "P.lat", ""),
        (
            ["--upto", "18446744073709551616", "P"].as_slice(),
            "P.lat",
            "",
        ),
        (["--upto", "-1", "P"].as_slice(), "P.lat", ""),
        (["--model", "2x2", "P"].as_slice(), "P.lat", ""),
        (["--model", "17x2"].as_slice(), "P.lat", ""),
        (["--model", "16x16x3"].as_slice(), "P.lat", ""),
        (
            ["--workers", "1", "--workers", "1", "P"].as_slice(),
            "P.lat",
            "",
        ),
    ];
    for (words, lattice, answer) in rows {
        let given = (lattice, "1 2\n-2 2\n");
        let made = (answer, "1 2\n2 -2\n");
        if answer == "" {
            let ended = assert_run(
                &rt,
                words,
                &[given],
                MANY,
                &[],
                (Status::Usage, USAGE),
                &[given],
            )?;
            assert_eq!(rt; ended.folder.calls(), 1);
        } else {
            assert_run(
                &rt,
                words,
                &[given],
                MANY,
                &[],
                (Status::Done, ""),
                &[given, made],
            )?;
        }
    }
    Ok(())
}
