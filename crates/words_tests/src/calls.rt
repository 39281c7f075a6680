//! What worked calls say, and which rule others break first.

use run_words::{Mode, UsageRule, Words, WordsFault, read_words};
use std::alloc::Global;
use std::test::Fail;

/// What is read of a call's words.
fn read(alloc: Global, call: &[&str]) -> Result<Result<Words, WordsFault>, Fail> {
    let mut words = Vec::new(alloc);
    for word in call {
        words.push(String::from_str(alloc, word)?)?;
    }
    Ok(read_words(alloc, &words))
}

#[test]
fn calls_are_read(rt: HostRuntime) -> Result<(), Fail> {
    let table: [(&[&str], Mode, Option<u64>, &str, bool); 7] = [
        (&["play"], Mode::Play, None, "", false),
        (&["play", "--folder", "out"], Mode::Play, None, "out", false),
        (&["--folder=a/b", "live"], Mode::Live, None, "a/b", false),
        (&["live", "--loopback"], Mode::Live, None, "", true),
        (&["--loopback", "live"], Mode::Live, None, "", true),
        (&["storm", "7"], Mode::Storm, Some(7), "", false),
        (
            &["storm", "018446744073709551615"],
            Mode::Storm,
            Some(u64::MAX),
            "",
            false,
        ),
    ];
    for (call, mode, number, folder, loopback) in table {
        let Ok(words) = read(rt.alloc(), call)? else {
            return Err(Fail::new("words"));
        };
        let path = match &words.folder {
            Some(folder) => folder.as_str(),
            None => "",
        };
        assert_eq!(rt;
            (words.mode, words.number, path, words.loopback),
            (mode, number, folder, loopback)
        );
    }
    Ok(())
}

#[test]
fn the_first_rule_is_told(rt: HostRuntime) -> Result<(), Fail> {
    let table: [(&[&str], UsageRule); 18] = [
        (&[], UsageRule::Words),
        (&["--help"], UsageRule::Words),
        (&["--version"], UsageRule::Words),
        (&["storm", "7", "8"], UsageRule::Words),
        (&["live", "--loopback", "--loopback"], UsageRule::Words),
        (&["play", "--folder"], UsageRule::Words),
        (&["live", "--folder", "--loopback"], UsageRule::Words),
        (&["fly"], UsageRule::Mode),
        (&["fly", "x", "--loopback"], UsageRule::Mode),
        (&["play", "3"], UsageRule::Number),
        (&["play", "3", "--loopback"], UsageRule::Number),
        (&["storm"], UsageRule::Number),
        (&["storm", ""], UsageRule::Number),
        (&["storm", "x"], UsageRule::Number),
        (&["storm", "+7"], UsageRule::Number),
        (&["storm", "18446744073709551616"], UsageRule::Number),
        (&["play", "--loopback"], UsageRule::Loopback),
        (&["storm", "7", "--loopback"], UsageRule::Loopback),
    ];
    for (call, rule) in table {
        let Err(fault) = read(rt.alloc(), call)? else {
            return Err(Fail::new("no rule is broken"));
        };
        assert_eq!(rt; fault, WordsFault::Usage { rule });
    }
    Ok(())
}
