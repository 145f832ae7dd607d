// Readings and spellings of the field families on chosen bytes, as tables that are run.
#![tactic(auto)]

use fields::cause::Sort;
use fields::cursor::Cursor;
use fields::family::{Family, Kind};

// A kind on some bytes, and what reading gives: the field's length and number, or the cause's number, as the rules give it and as the tables have always had it.
#[derive(Clone, Copy)]
pub struct Case {
    pub kind: Kind,
    pub bytes: &'static [u8],
    pub wanted: Result<(usize, i64), u8>,
}

pub const fn good(
    code: u8,
    parameter: u8,
    bytes: &'static [u8],
    length: usize,
    number: i64,
) -> Case {
    Case {
        kind: Kind { code, parameter },
        bytes,
        wanted: Ok((length, number)),
    }
}

pub const fn fault(code: u8, parameter: u8, bytes: &'static [u8], cause: u8) -> Case {
    Case {
        kind: Kind { code, parameter },
        bytes,
        wanted: Err(cause),
    }
}

// Whether reading gives what the case says, and leaves the cursor behind the field or where it was.
pub fn reads<F: Family>(family: &F, case: &Case) -> bool {
    let mut cursor = Cursor::new(case.bytes);
    let read = family
        .read(case.kind, &mut cursor)
        .map_err(|cause| cause.number());
    let behind = read.map_or(0, |(length, _)| length);
    read == case.wanted && cursor.place == behind
}

// Whether a buffer that is too short is refused and left as it is.
fn refuses<F: Family>(family: &F, kind: Kind, number: i64, out: &mut [u8]) -> bool {
    out.fill(0xAA);
    family.spell(kind, number, out).is_err() && out.iter().all(|byte| *byte == 0xAA)
}

// Whether a good numeric field is spelled with the bytes read, from the middle of a buffer, and refused one byte less.
pub fn spells<F: Family>(family: &F, case: &Case) -> bool {
    let (Ok((length, number)), Sort::Numeric) = (case.wanted, family.sort(case.kind)) else {
        return true;
    };
    if length != family.spelled_length(case.kind, number) || length == 0 || length > 28 {
        return false;
    }
    let mut out = [0xAA; 32];
    let mut short = [0; 32];
    family.spell(case.kind, number, &mut out[4..]) == Ok(length)
        && out.starts_with(&[0xAA; 4])
        && case.bytes.get(..length) == out.get(4..4 + length)
        && out[4 + length..].iter().all(|byte| *byte == 0xAA)
        && refuses(family, case.kind, number, &mut short[..length - 1])
}

// Whether all is as the case says.
pub fn stands<F: Family>(family: &F, case: &Case) -> bool {
    reads(family, case) && spells(family, case)
}

#[cfg(test)]
mod tests {
    use super::*;
    use either::{Either, Left, Right};
    use fields::ascii::Ascii;
    use fields::binary::Binary;
    use fields::pair::Pair;

    #[test]
    fn whole_numbers(rt: HostRuntime) {
        let cases = [
            good(1, 0, b"0", 1, 0),
            good(1, 0, b"12,5", 2, 12),
            good(1, 0, b"123456789012", 12, 123456789012),
            good(1, 0, b"999999999999x", 12, 999999999999),
            fault(1, 0, b"1234567890123", 3),
            fault(1, 0, b"0000000000000", 3),
            fault(1, 0, b"007", 4),
            fault(1, 0, b"00", 4),
            fault(1, 0, b"", 1),
            fault(1, 0, b"x1", 2),
            fault(1, 0, b"-1", 2),
            fault(1, 1, b"1", 2),
            fault(1, 0, b"0000000000000x", 3),
        ];
        for case in cases {
            assert!(rt; stands(&Ascii, &case));
        }
    }

    #[test]
    fn amounts(rt: HostRuntime) {
        let cases = [
            good(2, 2, b"0.05", 4, 5),
            good(2, 2, b"-0.05", 5, -5),
            good(2, 2, b"-12.50,", 6, -1250),
            good(2, 2, b"1.00", 4, 100),
            good(2, 1, b"-9.5", 4, -95),
            good(2, 3, b"0.001 ", 5, 1),
            fault(2, 2, b"1234567890123x", 2),
            fault(2, 0, b"0000000000000", 3),
            good(2, 2, b"9999999999.99", 13, 999999999999),
            good(2, 0, b"12.5", 2, 12),
            good(2, 0, b"-999999999999", 13, -999999999999),
            good(2, 4, b"0.0001", 6, 1),
            fault(2, 2, b"99999999999.99", 3),
            fault(2, 0, b"1234567890123", 3),
            fault(2, 2, b"", 1),
            fault(2, 2, b"-", 2),
            fault(2, 2, b"1", 2),
            fault(2, 2, b"1.", 2),
            fault(2, 2, b"1.234", 2),
            fault(2, 2, b"1.2", 2),
            fault(2, 2, b"1,23", 2),
            fault(2, 0, b"-0", 4),
            fault(2, 2, b"-0.00", 4),
            fault(2, 2, b"-00.05", 4),
            fault(2, 2, b"01.00", 4),
            fault(2, 5, b"1.00000", 2),
        ];
        for case in cases {
            assert!(rt; stands(&Ascii, &case));
        }
    }

    #[test]
    fn dates(rt: HostRuntime) {
        let cases = [
            good(6, 0, b"2024-02-29", 10, 20240229),
            good(6, 0, b"2024-02-290", 10, 20240229),
            good(6, 0, b"1900-02-29", 10, 19000229),
            good(6, 0, b"2199-12-31", 10, 21991231),
            good(6, 0, b"2023-04-30", 10, 20230430),
            fault(6, 0, b"", 1),
            fault(6, 0, b"x", 1),
            fault(6, 0, b"2024/02/2", 1),
            fault(6, 0, b"2024/02-29", 2),
            fault(6, 0, b"2024-02/29", 2),
            fault(6, 0, b"9999-99-9x", 2),
            fault(6, 0, b"0000-00-00", 3),
            fault(6, 0, b"2023-02-29", 3),
            fault(6, 0, b"2024-02-30", 3),
            fault(6, 0, b"2024-01-00", 3),
            fault(6, 0, b"2024-04-31", 3),
            fault(6, 0, b"2024-01-32", 3),
            fault(6, 0, b"2024-00-01", 3),
            fault(6, 0, b"2024-13-01", 3),
            fault(6, 0, b"1899-12-31", 3),
            fault(6, 0, b"2200-01-01", 3),
        ];
        for case in cases {
            assert!(rt; stands(&Ascii, &case));
        }
    }

    #[test]
    fn texts(rt: HostRuntime) {
        let cases = [
            good(4, 44, b"", 0, 0),
            good(4, 44, b",a", 0, 0),
            good(4, 44, b"ab,c", 2, 2),
            good(4, 44, b"abc", 3, 3),
            good(4, 10, b"a,b\n", 3, 3),
            good(4, 0, b"a", 1, 1),
            fault(5, 0, b"a", 2),
        ];
        for case in cases {
            assert!(rt; stands(&Ascii, &case));
        }
    }

    #[test]
    fn binary_numbers(rt: HostRuntime) {
        let cases = [
            good(1, 1, b"\x00", 1, 0),
            good(1, 1, b"\xff\x01", 1, 255),
            good(1, 2, b"\xff\xff", 2, 65535),
            good(1, 3, b"\xff\xff\xff", 3, 16777215),
            good(1, 4, b"\xff\xff\xff\xff", 4, 4294967295),
            good(2, 1, b"\x7f", 1, 127),
            good(2, 1, b"\x80", 1, -128),
            good(2, 2, b"\x7f\xff", 2, 32767),
            good(2, 2, b"\x80\x00", 2, -32768),
            good(2, 3, b"\x7f\xff\xff", 3, 8388607),
            good(2, 3, b"\x80\x00\x00", 3, -8388608),
            good(2, 4, b"\x7f\xff\xff\xff", 4, 2147483647),
            good(2, 4, b"\x80\x00\x00\x00", 4, -2147483648),
            good(2, 4, b"\xff\xff\xff\xff", 4, -1),
            good(3, 3, b"abcd", 3, 3),
            fault(1, 2, b"a", 1),
            fault(2, 4, b"abc", 1),
            fault(3, 255, b"abc", 1),
            fault(1, 0, b"a", 2),
            fault(1, 5, b"abcdef", 2),
            fault(3, 0, b"a", 2),
        ];
        for case in cases {
            assert!(rt; stands(&Binary, &case));
        }
    }

    #[test]
    fn pairs(rt: HostRuntime) {
        let ascii: Either<Ascii, Binary> = Left(Ascii);
        let binary: Either<Ascii, Binary> = Right(Binary);
        let pair = Pair::new(ascii, binary);
        let cases = [
            good(1, 0, b"17", 2, 17),
            good(33, 2, b"\x01\x02", 2, 258),
            good(34, 1, b"\xff", 1, -1),
            fault(31, 0, b"17", 2),
            fault(32, 1, b"17", 2),
            fault(63, 1, b"17", 2),
            fault(64, 1, b"17", 2),
        ];
        for case in cases {
            assert!(rt; stands(&pair, &case));
        }
        let nested = Pair::new(pair, ascii);
        assert!(rt; stands(&nested, &good(33, 0, b"5", 1, 5)));
        assert!(rt; stands(&nested, &fault(3, 1, b"5", 2)));
    }

    #[test]
    fn places(rt: HostRuntime) {
        let whole = Kind {
            code: 1,
            parameter: 0,
        };
        let text = Kind {
            code: 4,
            parameter: 44,
        };
        let date = Kind {
            code: 6,
            parameter: 0,
        };
        let mut cursor = Cursor {
            bytes: b"17,5",
            place: 3,
        };
        assert!(rt; Ascii.read(whole, &mut cursor).is_ok() && cursor.place == 4);
        assert!(rt; Ascii.read(whole, &mut cursor).is_err() && cursor.place == 4);
        cursor.place = 9;
        assert!(rt; Ascii.read(text, &mut cursor).is_ok() && cursor.place == 9);
        assert!(rt; Ascii.read(date, &mut cursor).is_err() && cursor.place == 9);
    }
}
