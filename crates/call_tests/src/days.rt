//! Days and instants of known dates.
use market_time::{TimeFault, day_of, first_sunday_after, instant, offset_of, weekday};

/// The Sundays after two days that follow one another, and the instants of 10:00 in London and of 13:00 in New York, five hours
/// behind.
fn known() -> ([i32; 2], [i64; 2]) {
    let sundays = [first_sunday_after(22339), first_sunday_after(22340)];
    let instants = [instant(22341, 600, 0), instant(22341, 780, -300)];
    (sundays, instants)
}

/// Monday 2031-03-03 is day 22341.
#[test]
fn tells_days_and_instants(rt: HostRuntime) {
    assert!(rt; day_of(b"2031-03-03") == Ok(22341) && weekday(22341) == 1);
    assert!(rt; day_of(b"2031-02-29") == Err(TimeFault::BadDate));
    assert!(rt; offset_of(b"+14:01") == Err(TimeFault::BadOffset));
    assert_eq!(rt; known(), ([22340, 22347], [32171640, 32172120]));
}
