//! Lists of every kind of length.
use lane_mask::between;

/// Whether of so many rows those that hold day 16 are marked, and nothing past the end is written. Row i goes from i to i + 1, so that
/// only the rows 15 and 16 hold it.
fn are_marked(lows: &[i32; 40], highs: &[i32; 40], count: usize) -> bool {
    if count > 40 {
        return false;
    }
    let mut marks = [true; 40];
    between(&lows[..count], &highs[..count], 16, &mut marks[..count]);
    for i in 0..40 {
        if marks[i] != (i == 15 || i == 16 || i >= count) {
            return false;
        }
    }
    true
}

/// How many rows are marked otherwise, if any number is.
fn wrong_length() -> Option<usize> {
    let mut lows = [0; 40];
    let mut highs = [0; 40];
    for i in 0..40 {
        lows[i] = i as i32;
        highs[i] = i as i32 + 1;
    }
    for count in [0, 1, 3, 4, 5, 8, 9, 15, 16, 17, 31, 32, 33] {
        if !are_marked(&lows, &highs, count) {
            return Some(count);
        }
    }
    None
}

// Of rows that go from minute to minute one of each end is marked anew, and where there is no row nothing is written.
#[test]
fn marks_rows(rt: HostRuntime) {
    assert_eq!(rt; wrong_length(), None);
    let mut marks = [false, false, true];
    between(&[0, 300, 1000], &[1439, 1320, 1100], 600, &mut marks);
    assert_eq!(rt; marks, [true, true, false]);
}
