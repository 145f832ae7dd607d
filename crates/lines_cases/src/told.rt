// The lines that tell a problem and a field.
use cli::problems::Problem;
use cli::readings::Reading;
use fields::cause::Cause;
use layout::refusal::Refusal as LayoutRefusal;
use reader::refusal::Refusal as RowRefusal;
use rows::refusal::Refusal;
use std::test::Fail;

#[test]
fn problems_of_words_are_told(rt: HostRuntime) -> Result<(), Fail> {
    let heap = rt.alloc();
    assert_eq!(rt;
        Problem::NoCommand("row").to_string(heap)?.as_str(),
        "neskvaru: there is no command 'row'; neskvaru alone tells how it is used"
    );
    assert_eq!(rt;
        Problem::NoRule("lines").to_string(heap)?.as_str(),
        "neskvaru: 'lines' is no row rule; write newline, fixed:W or sample:N:RULE"
    );
    assert_eq!(rt;
        Problem::Unreadable("x.csv", "No such file or directory")
            .to_string(heap)?
            .as_str(),
        "neskvaru: cannot read the file 'x.csv': No such file or directory"
    );
    assert_eq!(rt;
        Problem::WrongWords("rows RULE FILE")
            .to_string(heap)?
            .as_str(),
        "neskvaru: too few or too many words; write: neskvaru rows RULE FILE"
    );
    Ok(())
}

#[test]
fn refusals_are_told(rt: HostRuntime) -> Result<(), Fail> {
    let heap = rt.alloc();
    assert_eq!(rt;
        Problem::Refused(Refusal::FileTooLong, "x.csv")
            .to_string(heap)?
            .as_str(),
        "neskvaru: refused, number 8: a file has more than 16777216 bytes: 'x.csv'"
    );
    assert_eq!(rt;
        Problem::Refused(Refusal::OutOfRange, "fixed:0")
            .to_string(heap)?
            .as_str(),
        "neskvaru: refused, number 11: a width is not 1 to 4096, or a sample is not 0 to 16777216: 'fixed:0'"
    );
    assert_eq!(rt;
        Problem::RefusedLayout(LayoutRefusal::Depth, "x.layout")
            .to_string(heap)?
            .as_str(),
        "neskvaru: refused, number 7: a node lies too deep: 'x.layout'"
    );
    assert_eq!(rt;
        Problem::Unread(3, RowRefusal::RowTooLong, "x.csv")
            .to_string(heap)?
            .as_str(),
        "neskvaru: row 3 is not read, number 9: a row has more than 4096 bytes: 'x.csv'"
    );
    Ok(())
}

#[test]
fn readings_are_told(rt: HostRuntime) -> Result<(), Fail> {
    let heap = rt.alloc();
    let number = Reading::Number {
        name: "amount",
        number: -1250,
        length: 6,
        size: 7,
    };
    assert_eq!(rt;
        number.to_string(heap)?.as_str(),
        "amount -1250, 6 of 7 bytes read"
    );
    let kept = Reading::Kept {
        name: "text",
        length: 3,
        size: 8,
    };
    assert_eq!(rt; kept.to_string(heap)?.as_str(), "text, 3 of 8 bytes kept");
    let fault = Reading::Fault {
        name: "date",
        cause: Cause::Range,
    };
    assert_eq!(rt;
        fault.to_string(heap)?.as_str(),
        "date: cause 3, too large, or no such date"
    );
    Ok(())
}
