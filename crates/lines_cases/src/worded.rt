// The words that stand for rules, families and numbers.
use cli::families::family_of;
use cli::numbers::number_of;
use cli::rules::{RuleFault, rule_of};
use rows::refusal::Refusal;

#[test]
fn words_of_rules_are_read(rt: HostRuntime) {
    let out_of_range = RuleFault::Refused(Refusal::OutOfRange);
    for words in [
        "newline",
        "fixed:1",
        "fixed:4096",
        "sample:0:newline",
        "sample:16777216:sample:3:fixed:7",
    ] {
        assert!(rt; rule_of(words).is_ok());
    }
    for words in [
        "fixed:0",
        "fixed:4097",
        "sample:16777217:newline",
        "sample:1:fixed:0",
        "fixed:99999999999999999999",
    ] {
        assert_eq!(rt; rule_of(words).err(), Some(out_of_range));
    }
    for words in [
        "",
        "Newline",
        "fixed",
        "fixed:",
        "fixed:+1",
        "fixed:2 ",
        "sample:1",
        "sample::newline",
        "sample:1:",
        "sample:99999999:lines",
    ] {
        assert_eq!(rt; rule_of(words).err(), Some(RuleFault::Unreadable));
    }
    assert_eq!(rt; number_of("0016777216"), Some(16_777_216));
}

// What the words of a family say, as the names of its kinds 1 and 33.
fn named(words: &str) -> (&'static str, &'static str) {
    match family_of(words) {
        Some(family) => (family.kind_name(1), family.kind_name(33)),
        None => ("", ""),
    }
}

#[test]
fn words_of_families_are_read(rt: HostRuntime) {
    assert_eq!(rt; named("ascii"), ("whole number", "field"));
    assert_eq!(rt; named("binary"), ("unsigned", "field"));
    assert_eq!(rt; named("pair:ascii:binary"), ("whole number", "unsigned"));
    assert_eq!(rt;
        named("pair:pair:binary:ascii:ascii"),
        ("unsigned", "whole number")
    );
    assert_eq!(rt;
        named("pair:ascii:pair:binary:ascii"),
        ("whole number", "unsigned")
    );
    for words in [
        "",
        "Ascii",
        "pair",
        "pair:",
        "pair:ascii",
        "pair:ascii:binary:ascii",
        "pair:ascii:",
        "ascii:binary",
    ] {
        assert!(rt; family_of(words).is_none());
    }
}
