//! Filings of known texts.
use fare_filing::{FilingFault, filing_text, read_filing};
use std::alloc::Global;
use std::test::Fail;

/// A name, a text, and the text that is written for what it spells.
type Case = (&'static str, &'static [u8], &'static [u8]);

const CASES: [Case; 11] = [
    ("no action", br#" {"actions":[]}"#, br#"{"actions":[]}"#),
    (
        "a fare is put",
        br#"{"actions":[{"put_fare":{"carrier":"QX","from":"LON","to":"NYC","basis":"R1","class":"A","kind":"R","amount":1000000000,"rule":9999}}]}"#,
        br#"{"actions":[{"put_fare":{"amount":1000000000,"basis":"R1","carrier":"QX","class":"A","from":"LON","kind":"R","rule":9999,"to":"NYC"}}]}"#,
    ),
    (
        "a fare is dropped",
        br#"{"actions":[{"drop_fare":{"carrier":"Q1","from":"LON","to":"NYC","basis":"ABCDEFG8"}}]}"#,
        br#"{"actions":[{"drop_fare":{"basis":"ABCDEFG8","carrier":"Q1","from":"LON","to":"NYC"}}]}"#,
    ),
    (
        "a rule is put",
        br#"{"actions":[{"put_rule":{"rule":1,"carrier":"QX","cat5":14,"cat10":{"kinds":["circle"],"partners":"any","end_on_end":"never"},"cat6":{"sunday":true,"days":0}}}]}"#,
        br#"{"actions":[{"put_rule":{"carrier":"QX","cat10":{"end_on_end":"never","kinds":["circle"],"partners":"any"},"cat5":14,"cat6":{"days":0,"sunday":true},"rule":1}}]}"#,
    ),
    (
        "a rule of all categories",
        br#"{"actions":[{"put_rule":{"carrier":"QX","rule":1,"cat2":{"days":[1,7],"from":"06:30","to":"23:59"},"cat3":[["2031-01-01","2031-06-30"]],"cat4":{"allow":false,"flights":[["QX",100,101]]},"cat5":14,"cat6":{"days":3,"sunday":true},"cat7":365,"cat8":{"max":2,"charge":1000000,"places":["DUB"]},"cat9":{"max":3,"online":false},"cat10":{"kinds":["round_trip","circle"],"partners":"same_rule","end_on_end":"same_carrier"},"cat12":[{"carrier":"QX","low":101,"high":9999,"first":"2031-03-03","last":"2031-03-03","amount":1500}],"cat14":{"ranges":[["2031-01-01","2031-06-30"]],"by":"2031-03-31"}}}]}"#,
        br#"{"actions":[{"put_rule":{"carrier":"QX","cat10":{"end_on_end":"same_carrier","kinds":["round_trip","circle"],"partners":"same_rule"},"cat12":[{"amount":1500,"carrier":"QX","first":"2031-03-03","high":9999,"last":"2031-03-03","low":101}],"cat14":{"by":"2031-03-31","ranges":[["2031-01-01","2031-06-30"]]},"cat2":{"days":[1,7],"from":"06:30","to":"23:59"},"cat3":[["2031-01-01","2031-06-30"]],"cat4":{"allow":false,"flights":[["QX",100,101]]},"cat5":14,"cat6":{"days":3,"sunday":true},"cat7":365,"cat8":{"charge":1000000,"max":2,"places":["DUB"]},"cat9":{"max":3,"online":false},"rule":1}}]}"#,
    ),
    (
        "a rule without a category",
        br#"{"actions":[{"put_rule":{"rule":9999,"carrier":"QX"}}]}"#,
        br#"{"actions":[{"put_rule":{"carrier":"QX","rule":9999}}]}"#,
    ),
    (
        "a rule is dropped",
        br#"{"actions":[{"drop_rule":{"rule":7,"carrier":"QX"}}]}"#,
        br#"{"actions":[{"drop_rule":{"carrier":"QX","rule":7}}]}"#,
    ),
    (
        "seats of all days are put, one class without any",
        br#"{"actions":[{"put_seats":{"carrier":"QX","number":101,"from":"LON","date":"*","seats":"Z1Y9A0M4"}}]}"#,
        br#"{"actions":[{"put_seats":{"carrier":"QX","date":"*","from":"LON","number":101,"seats":"M4Y9Z1"}}]}"#,
    ),
    (
        "no seats on a day",
        br#"{"actions":[{"put_seats":{"carrier":"QX","number":9999,"from":"LON","date":"2031-03-03","seats":"Y0"}}]}"#,
        br#"{"actions":[{"put_seats":{"carrier":"QX","date":"2031-03-03","from":"LON","number":9999,"seats":"A0"}}]}"#,
    ),
    (
        "seats are dropped",
        br#"{"actions":[{"drop_seats":{"number":1,"carrier":"QX","from":"LON","date":"2099-12-31"}}]}"#,
        br#"{"actions":[{"drop_seats":{"carrier":"QX","date":"2099-12-31","from":"LON","number":1}}]}"#,
    ),
    (
        "of an action named twice the last one counts",
        br#"{"actions":[{"drop_rule":{"carrier":"QX","rule":0},"drop_rule":{"carrier":"QX","rule":2}}]}"#,
        br#"{"actions":[{"drop_rule":{"carrier":"QX","rule":2}}]}"#,
    ),
];

/// Whether the text that is written for what a text spells is this one.
fn is_written(alloc: Global, text: &[u8], expected: &[u8]) -> Result<bool, FilingFault> {
    let filing = read_filing(alloc, text)?;
    let written = filing_text(alloc, &filing)?;
    Ok(written.as_slice() == expected)
}

/// What is written otherwise, if anything is.
fn wrong(alloc: Global, cases: &[Case]) -> Result<Option<&'static str>, FilingFault> {
    for case in cases {
        if !is_written(alloc, case.1, case.2)? {
            return Ok(Some(case.0));
        }
    }
    Ok(None)
}

#[test]
fn writes_each_action(rt: HostRuntime) -> Result<(), Fail> {
    assert_eq!(rt; wrong(rt.alloc(), &CASES)?, None);
    Ok(())
}
