// The numbers of outcomes, and the worked rows.
use report::outcome::Outcome;
use report::worked::worked_examples;

#[test]
fn outcomes_have_their_numbers(rt: HostRuntime) {
    assert_eq!(rt; Outcome::Good.number(), 0);
    assert_eq!(rt; Outcome::SyntaxFault.number(), 1);
    assert_eq!(rt; Outcome::CheckFault.number(), 2);
    assert_eq!(rt; Outcome::Absent.number(), 3);
    assert_eq!(rt; Outcome::Skipped.number(), 4);
    assert_eq!(rt; Outcome::FaultBelow.number(), 5);
    assert_eq!(rt; Outcome::Scrap.number(), 6);
}

#[test]
fn the_worked_rows_are_those_of_two_years(rt: HostRuntime) {
    let examples = worked_examples();
    assert_eq!(rt; examples.layout.len(), 50);
    assert_eq!(rt; examples.faulty, b"17,2023-02-29,-12.50".as_slice());
    assert_eq!(rt; examples.clean, b"17,2024-02-29,-12.50".as_slice());
}
