//! Which fault a text of hours has, and dates.
use fax_hours::{Civil, Hours, HoursFault, Zone, civil_minute};
use std::test::Fail;

#[test]
fn faults_of_hours(rt: HostRuntime) {
    let cases = [
        ("", HoursFault::Empty),
        (" \t", HoursFault::Empty),
        ("Mo,", HoursFault::Empty),
        (",Xx", HoursFault::Empty),
        ("Xx", HoursFault::Day),
        ("Mon", HoursFault::Day),
        ("0800-1700", HoursFault::Day),
        ("AnyMo", HoursFault::Day),
        ("Mo Tu", HoursFault::Range),
        ("Wk0800", HoursFault::Range),
        ("Wk2500-0100", HoursFault::Range),
        ("Wk2400-0100", HoursFault::Range),
        ("Wk0860-0900", HoursFault::Range),
        ("Wk0800-2401", HoursFault::Range),
        ("Wk0800_1700", HoursFault::Range),
        ("Wk 0800-1700", HoursFault::Range),
        ("Wk0800-17000", HoursFault::Range),
        // The first item at fault is told.
        ("Wk0800,Xx,", HoursFault::Range),
        ("Mo,Xx,Wk0800", HoursFault::Day),
    ];
    for (text, want) in cases {
        assert_eq!(rt; Hours::read(text).err(), Some(want), "{text}");
    }
}

#[test]
fn dates_of_seconds(rt: HostRuntime) -> Result<(), Fail> {
    let cases = [
        ("UTC0", 0, (1970, 1, 1, 0, 0)),
        ("EST5EDT,M3.2.0,M11.1.0", 0, (1969, 12, 31, 19, 0)),
        ("EST5EDT,M3.2.0,M11.1.0", 1710054000, (2024, 3, 10, 3, 0)),
        ("UTC0", 951782459, (2000, 2, 29, 0, 0)),
        ("UTC0", 253402207200, (9999, 12, 30, 22, 0)),
    ];
    for (text, seconds, (year, month, day, hour, minute)) in cases {
        let want = Civil {
            year,
            month,
            day,
            hour,
            minute,
        };
        assert_eq!(rt;
            civil_minute(&Zone::read(text)?, seconds)?,
            want,
            "{text} at {seconds}"
        );
    }
    assert!(rt; civil_minute(&Zone::utc(), 253402207201).is_err());
    assert!(rt; civil_minute(&Zone::utc(), u64::MAX).is_err());
    Ok(())
}
