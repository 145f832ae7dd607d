// The lines of a listing, under rules and under the words that stand for them.
use cli::listing::Listing;
use cli::rules::rule_of;
use rows::newline::Newline;
use rows::rule::RowRule;
use std::alloc::Global;
use std::test::Fail;

// The lines of a listing, one after another.
fn listed<R: RowRule + Drop>(heap: Global, rule: R, file: &[u8]) -> Result<String, Fail> {
    let listing = Listing::new(rule, file).map_err(|_| Fail::new("too long"))?;
    let mut text = String::new(heap);
    for line in listing {
        writeln!(text, "{line}")?;
    }
    Ok(text)
}

#[test]
fn newline_rows_are_listed(rt: HostRuntime) -> Result<(), Fail> {
    let heap = rt.alloc();
    assert_eq!(rt;
        listed(heap, Newline::new(), b"")?.as_str(),
        "tail: start 0, length 0\n0 rows; the file has 0 bytes\n"
    );
    assert_eq!(rt;
        listed(heap, Newline::new(), b"\n")?.as_str(),
        "row 1: start 0, length 0, ended\ntail: start 1, length 0\n1 row; the file has 1 byte\n"
    );
    assert_eq!(rt;
        listed(heap, Newline::new(), b"a\nb")?.as_str(),
        "row 1: start 0, length 1, ended\nrow 2: start 2, length 1, unended\ntail: start 3, length 0\n2 rows; the file has 3 bytes\nnotice: the closing row, row 2, has no newline at its end; it is a row like the others and is counted\n"
    );
    Ok(())
}

// The lines of the listing of a file under the rule that some words stand for.
fn listed_by(heap: Global, words: &str, file: &[u8]) -> Result<String, Fail> {
    let rule = rule_of(words).map_err(|_| Fail::new("no rule"))?;
    listed(heap, rule, file)
}

#[test]
fn words_choose_the_rule(rt: HostRuntime) -> Result<(), Fail> {
    let heap = rt.alloc();
    assert_eq!(rt;
        listed_by(heap, "fixed:2", b"abc")?.as_str(),
        "row 1: start 0, length 2, ended\ntail: start 2, length 1: these bytes belong to no row\n1 row; the file has 3 bytes\n"
    );
    let one =
        "row 1: start 0, length 1, ended\ntail: start 2, length 1: these bytes belong to no row\n1 row; the file has 3 bytes\n";
    for words in [
        "sample:1:newline",
        "sample:1:sample:2:newline",
        "sample:2:sample:1:newline",
    ] {
        assert_eq!(rt; listed_by(heap, words, b"a\nb")?.as_str(), one);
    }
    assert_eq!(rt;
        listed_by(heap, "sample:0:fixed:3", b"abc")?.as_str(),
        "tail: start 0, length 3: these bytes belong to no row\n0 rows; the file has 3 bytes\n"
    );
    Ok(())
}
