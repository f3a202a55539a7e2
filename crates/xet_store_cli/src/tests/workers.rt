//! Tests of runs with several workers.

use super::{ABC, NOTHING, run_once};
use std::alloc::Global;
use std::test::Fail;
use xet_io::Refusal;

const A: &str =
    "46e3a28442b08820dd5508bca2e1eed9a8df1a05d514093fa0566ad7a3e7c0ef 200 d1250c3cf9c8640e84d52e73499b91fa6f548ac1449be234e60ef25a1d6d632f\n";

const E: &str =
    "e6b05a4e3e629dfd8213e783d33b53f68356b426e409996beb195c3e19207404 195 aba7644809ff12bcf773c5421499802d71d755ac830c2d2202a61240cedbc8fb\n";

const RANGES: &str = "61616161626262626262\n656565656262\n6263\n63636464646464646464\n\n";

/// Appends the line of a file of 64 bytes, 64 `b`, 64 `c`, and these last ones: chunks of 64 bytes, of which two are those of
/// other such files.
fn push_file(input: &mut String, first: &str, last: &str) -> Result<(), Refusal> {
    input.push_str("file ")?;
    for digits in [first, "62", "63"] {
        for _ in 0..64 {
            input.push_str(digits)?;
        }
    }
    input.push_str(last)?;
    input.push_str("\n")?;
    Ok(())
}

/// The lines of five files, and of ranges of each.
fn lines(alloc: Global) -> Result<String, Refusal> {
    let mut input = String::from_str(alloc, "range 1 60 70\n")?;
    push_file(&mut input, "61", "6464646464646464")?;
    input.push_str("file 616263\nfile\n")?;
    push_file(&mut input, "61", "6464646464646464")?;
    push_file(&mut input, "65", "666666")?;
    input.push_str("range 5 60 66\nrange 2 1 3\nrange 4 190 200\nrange 3 0 0\n")?;
    Ok(input)
}

/// The lines of 300 files: `abc`, and 299 of two bytes.
fn short_lines(alloc: Global) -> Result<String, Refusal> {
    let mut input = String::from_str(alloc, "file 616263\n")?;
    for number in 1000..1299u64 {
        let line = format!(in alloc; "file {number}\n")?;
        input.push_str(line.as_str())?;
    }
    Ok(input)
}

#[test]
fn as_many_workers_as_there_may_be(rt: HostRuntime) -> Result<(), Fail> {
    let alloc = rt.alloc();
    let input = short_lines(alloc)?;
    let due = run_once(&rt, alloc, "pack 512 zero", input.as_str())?;
    let found = run_once(&rt, alloc, "pack 512 zero 256", input.as_str())?;
    assert_eq!(rt; (found.0.as_str(), found.1), (due.0.as_str(), 0));
    assert_eq!(rt; found.0.as_str().lines().count(), 300);
    assert!(rt; found.0.as_str().starts_with(ABC));
    Ok(())
}

#[test]
fn workers_change_no_line(rt: HostRuntime) -> Result<(), Fail> {
    let alloc = rt.alloc();
    let input = lines(alloc)?;
    let due = format!(in alloc; "{A}{ABC}{NOTHING}{A}{E}{RANGES}")?;
    for words in [
        "pack 512 zero",
        "pack 512 zero 1",
        "pack 512 zero 2",
        "pack 512 zero 7",
        "pack 512 zero 256",
    ] {
        let found = run_once(&rt, alloc, words, input.as_str())?;
        assert_eq!(rt;
            (found.0.as_str(), found.1),
            (due.as_str(), 0),
            "with {words}"
        );
    }
    Ok(())
}
