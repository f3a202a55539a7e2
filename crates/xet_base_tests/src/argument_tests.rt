ghost use Rattle.std.specs.Prelude.{◌≡◌, IfOk, false, map, string_bytes};
ghost use Rattle.std.specs.List.{list_any};
ghost use Rattle.xet_arguments.specs.Arguments.{is_option};

use std::alloc::{AllocError, Global};
use std::process::Abort;
use std::test::Fail;
use xet_arguments::*;

/// Words that are separated by spaces. None of them may begin with `-`.
fn words_of(rt: &impl Abort, alloc: Global, words: &str) -> Result<Vec<String>, AllocError>
    ensures { IfOk result (λ list. list_any is_option (map string_bytes list.items) ≡ false) }
{
    let mut list = Vec::new(alloc);
    for word in words.split_whitespace() {
        list.push(String::from_str(alloc, word)?)?;
    }
    assert!(rt; !has_option(&list));
    Ok(list)
}

#[test]
fn pack_takes_two_or_three_words(rt: HostRuntime) -> Result<(), Fail> {
    let alloc = rt.alloc();
    let (target, gear) = ("4096", "zero");
    for (given, workers) in [("4096 zero", None), ("4096 zero 8", Some("8"))] {
        let words = words_of(&rt, alloc, given)?;
        assert_eq!(rt;
            pack_arguments(alloc, &words)?,
            Some(PackArguments {
                target,
                gear,
                workers
            })
        );
    }
    for given in ["4096", "4096 zero 8 9"] {
        let words = words_of(&rt, alloc, given)?;
        assert_eq!(rt; pack_arguments(alloc, &words)?, None, "of {given}");
    }
    Ok(())
}

#[test]
fn make_takes_two_words(rt: HostRuntime) -> Result<(), Fail> {
    let alloc = rt.alloc();
    let words = words_of(&rt, alloc, "7 16777216")?;
    let (seed, bytes) = ("7", "16777216");
    assert_eq!(rt;
        make_arguments(alloc, &words)?,
        Some(MakeArguments { seed, bytes })
    );
    let long = words_of(&rt, alloc, "7 16777216 1")?;
    assert_eq!(rt; make_arguments(alloc, &long)?, None);
    Ok(())
}

#[test]
fn read_takes_three_words(rt: HostRuntime) -> Result<(), Fail> {
    let alloc = rt.alloc();
    let words = words_of(&rt, alloc, "00ff 0 10")?;
    let (hash, from, to) = ("00ff", "0", "10");
    assert_eq!(rt;
        read_arguments(alloc, &words)?,
        Some(ReadArguments { hash, from, to })
    );
    let long = words_of(&rt, alloc, "00ff 0 10 20")?;
    assert_eq!(rt; read_arguments(alloc, &long)?, None);
    Ok(())
}

#[test]
fn clean_takes_one_word_or_more(rt: HostRuntime) -> Result<(), Fail> {
    let alloc = rt.alloc();
    let words = words_of(&rt, alloc, "a b a")?;
    assert!(rt; some_arguments(alloc, &words)?);
    let none = words_of(&rt, alloc, "")?;
    assert!(rt; !some_arguments(alloc, &none)?);
    Ok(())
}

#[test]
fn list_and_group_take_no_words(rt: HostRuntime) -> Result<(), Fail> {
    let alloc = rt.alloc();
    let none = words_of(&rt, alloc, "")?;
    assert!(rt; no_arguments(alloc, &none)?);
    let words = words_of(&rt, alloc, "a")?;
    assert!(rt; !no_arguments(alloc, &words)?);
    Ok(())
}

#[test]
fn a_hyphen_begins_an_option(rt: HostRuntime) -> Result<(), Fail> {
    let alloc = rt.alloc();
    let mut words = Vec::new(alloc);
    words.push(String::from_str(alloc, "a-b")?)?;
    assert!(rt; !has_option(&words));
    words.push(String::from_str(alloc, "-")?)?;
    assert!(rt; has_option(&words));
    Ok(())
}
