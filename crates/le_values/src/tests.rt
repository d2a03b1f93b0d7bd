use crate::*;
use std::test::Fail;

#[test]
fn numbers(rt: HostRuntime) -> Result<(), Fail> {
    for (word, number) in [
        ("0", Some(0)),
        ("-0", Some(0)),
        ("007", Some(7)),
        ("-12", Some(-12)),
        ("1000000000000000000", Some(1_000_000_000_000_000_000)),
        ("-1000000000000000000", Some(-1_000_000_000_000_000_000)),
        (
            "0000000000000000000000000000000000000000000000042",
            Some(42),
        ),
        ("1000000000000000001", None),
        ("-1000000000000000001", None),
        ("99999999999999999999999999999999999999999999999", None),
        ("", None),
        ("-", None),
        ("--5", None),
        ("+5", None),
        ("5-", None),
        ("5.5", None),
        ("1,000", None),
        (" 5", None),
        ("٣", None),
    ] {
        assert_eq!(rt; number_of(word), number, "{word}");
    }
    for word in [
        "0",
        "10",
        "-7",
        "1000000000000000000",
        "-1000000000000000000",
    ] {
        let number = number_of(word).ok_or("no number")?;
        assert_eq!(rt; write_number(rt.alloc(), number)?.as_str(), word);
    }
    Ok(())
}

#[test]
fn days(rt: HostRuntime) -> Result<(), Fail> {
    for (word, number) in [
        ("0001-01-01", -719_162),
        ("1582-10-15", -141_427),
        ("1900-02-28", -25_509),
        ("1900-03-01", -25_508),
        ("1969-12-31", -1),
        ("1970-01-01", 0),
        ("2000-02-29", 11_016),
        ("2024-02-29", 19_782),
        ("2100-03-01", 47_541),
        ("9999-12-31", 2_932_896),
    ] {
        let day = day_of(word).ok_or("no date")?;
        assert_eq!(rt; day, number);
        assert_eq!(rt; write_day(rt.alloc(), day)?.as_str(), word);
    }
    for word in [
        "0000-01-01",
        "1900-02-29",
        "2023-02-29",
        "2024-04-31",
        "2024-13-01",
        "2024-00-10",
        "2024-01-00",
        "2024-1-01",
        "12024-01-01",
        "2024-01-01x",
        "2024/01/01",
        "-024-01-01",
        "",
    ] {
        assert_eq!(rt; day_of(word), None, "{word}");
    }
    Ok(())
}

#[test]
fn counting(rt: HostRuntime) -> Result<(), Fail> {
    assert_eq!(rt; add_days(19_723, 59), Some(19_782));
    assert_eq!(rt; add_days(-719_161, -1), Some(-719_162));
    assert_eq!(rt; add_days(-719_162, -1), None);
    assert_eq!(rt; add_days(2_932_896, 1), None);
    assert_eq!(rt; add_days(i32::MAX, i64::MAX), None);
    assert_eq!(rt; days_between(19_782, 19_723), -59);
    assert_eq!(rt; days_between(i32::MIN, i32::MAX), 4_294_967_295);
    for (word, months, later) in [
        ("2024-01-31", 1, Some("2024-02-29")),
        ("2023-01-31", 1, Some("2023-02-28")),
        ("1900-01-31", 1, Some("1900-02-28")),
        ("2024-03-31", -1, Some("2024-02-29")),
        ("2024-12-31", 2, Some("2025-02-28")),
        ("2024-02-29", -1200, Some("1924-02-29")),
        ("1970-01-01", -1, Some("1969-12-01")),
        ("0001-12-15", -11, Some("0001-01-15")),
        ("0001-12-15", -12, None),
        ("0001-01-31", 119_987, Some("9999-12-31")),
        ("0001-01-31", 119_988, None),
        ("9999-12-31", -119_987, Some("0001-01-31")),
        ("9999-12-31", i64::MAX, None),
        ("9999-12-31", i64::MIN, None),
    ] {
        let day = day_of(word).ok_or("no date")?;
        assert_eq!(rt; add_months(day, months), later.and_then(day_of), "{word}");
    }
    Ok(())
}
