//! Small cases, by their parts.
use fare_law::{List, Mem};
use std::alloc::Global;

/// What the cases of a book and a request share.
#[derive(Clone, Copy)]
pub struct Parts {
    /// All sections before the request.
    pub book: &'static str,
    /// A line.
    pub request: &'static str,
}

/// One flight and one fare of 20000.
pub const ONE_WAY: Parts = Parts {
    book: r#"#places
LON,60
NYC,60
#flights
QX,101,LON,NYC,10:00,+00:00,13:00,-05:00,0,2031-03-03,2031-03-03,1
#seats
QX,101,LON,*,Y9
#filings
{"actions":[{"put_fare":{"carrier":"QX","from":"LON","to":"NYC","basis":"Y1","class":"Y","kind":"O","amount":20000,"rule":0}}]}
"#,
    request: r#"{"sale":"2031-02-01","party":1,"best":3,"slices":[{"from":"LON","to":"NYC","first":"2031-03-03","days":1}]}
"#,
};

/// There and back by two flights, and three fares.
pub const ROUND_TRIP: Parts = Parts {
    book: r#"#places
LON,60
NYC,60
#flights
QX,101,LON,NYC,10:00,+00:00,13:00,-05:00,0,2031-03-03,2031-03-03,1
QX,102,NYC,LON,18:00,-04:00,06:00,+00:00,1,2031-03-10,2031-03-10,1
#seats
QX,101,LON,*,Y9
QX,102,NYC,*,Y9
#filings
{"actions":[{"put_fare":{"carrier":"QX","from":"LON","to":"NYC","basis":"R1","class":"Y","kind":"R","amount":40000,"rule":0}},{"put_fare":{"carrier":"QX","from":"LON","to":"NYC","basis":"Y1","class":"Y","kind":"O","amount":25000,"rule":0}},{"put_fare":{"carrier":"QX","from":"NYC","to":"LON","basis":"Y2","class":"Y","kind":"O","amount":24000,"rule":0}}]}
"#,
    request: r#"{"sale":"2031-02-01","party":1,"best":4,"slices":[{"from":"LON","to":"NYC","first":"2031-03-03","days":1},{"from":"NYC","to":"LON","first":"2031-03-10","days":1}]}
"#,
};

/// Six flights of two carriers, two of them a connection each way.
pub const TWO_CARRIERS: Parts = Parts {
    book: r#"#places
LON,60
DUB,45
NYC,90
#flights
BX,11,LON,NYC,11:00,+00:00,14:00,-05:00,0,2031-03-03,2031-03-03,1
EX,201,LON,DUB,07:00,+00:00,08:15,+00:00,0,2031-03-03,2031-03-03,1
EX,101,DUB,NYC,10:00,+00:00,12:30,-05:00,0,2031-03-03,2031-03-03,1
BX,12,NYC,LON,19:00,-04:00,06:30,+00:00,1,2031-03-12,2031-03-12,3
EX,102,NYC,DUB,17:30,-04:00,04:45,+00:00,1,2031-03-12,2031-03-12,3
EX,202,DUB,LON,06:30,+00:00,07:45,+00:00,0,2031-03-13,2031-03-13,4
#seats
BX,11,LON,*,J4Y9Q2
EX,201,LON,*,Y9Q9
EX,101,DUB,*,Y9Q9
BX,12,NYC,*,J4Y9Q1
EX,102,NYC,*,Y9Q4
EX,202,DUB,*,Y9Q9
#filings
{"actions":[{"put_rule":{"carrier":"BX","rule":1,"cat5":14,"cat6":{"days":0,"sunday":true},"cat7":30,"cat10":{"kinds":["round_trip"],"partners":"same_carrier","end_on_end":"free"}}},{"put_rule":{"carrier":"EX","rule":1,"cat5":7,"cat6":{"days":3,"sunday":true},"cat9":{"max":1,"online":true}}},{"put_fare":{"carrier":"BX","from":"LON","to":"NYC","basis":"QRT","class":"Q","kind":"R","amount":42000,"rule":1}},{"put_fare":{"carrier":"BX","from":"LON","to":"NYC","basis":"YRT","class":"Y","kind":"R","amount":90000,"rule":0}},{"put_fare":{"carrier":"EX","from":"LON","to":"NYC","basis":"QEX","class":"Q","kind":"R","amount":36000,"rule":1}},{"put_fare":{"carrier":"EX","from":"LON","to":"NYC","basis":"YOW","class":"Y","kind":"O","amount":30000,"rule":0}}]}
"#,
    request: r#"{"sale":"2031-02-10","party":2,"best":3,"slices":[{"from":"LON","to":"NYC","first":"2031-03-03","days":1},{"from":"NYC","to":"LON","first":"2031-03-12","days":1}]}
"#,
};

/// The fare of the one flight is put at 15000.
pub const CHEAPER: &str =
    r#"{"actions":[{"put_fare":{"carrier":"QX","from":"LON","to":"NYC","basis":"Y1","class":"Y","kind":"O","amount":15000,"rule":0}}]}
"#;

/// A fare is dropped that isn't there.
pub const UNKNOWN: &str =
    r#"{"actions":[{"drop_fare":{"carrier":"QX","from":"LON","to":"NYC","basis":"B9"}}]}
"#;

/// A fare of another market is put.
pub const ELSEWHERE: &str =
    r#"{"actions":[{"put_fare":{"carrier":"QX","from":"PAR","to":"ROM","basis":"P1","class":"Y","kind":"O","amount":15000,"rule":0}}]}
"#;

/// The first desk searches, and the second one once a filing came.
pub const OLD_AND_NEW: &str = "desks 2
1 search 1
2 wait 1
2 search 1
";

/// These texts as one.
pub fn joined(alloc: Global, texts: &[&str]) -> Result<List<u8>, Mem> {
    let mut bytes = Vec::new(alloc);
    for text in texts {
        bytes.extend_from_slice(text.as_bytes())?;
    }
    Ok(List::from_vec(bytes))
}

/// The case of a search.
pub fn search_case(alloc: Global, parts: Parts) -> Result<List<u8>, Mem> {
    joined(alloc, &[parts.book, "#request\n", parts.request, "#end\n"])
}

/// The case of a serving run: these later filings, these requests, each of two texts of lines, and this script.
pub fn serve_case(
    alloc: Global,
    book: &str,
    later: [&str; 2],
    requests: [&str; 2],
    script: &str,
) -> Result<List<u8>, Mem> {
    let parts = [
        book,
        "#later\n",
        later[0],
        later[1],
        "#request\n",
        requests[0],
        requests[1],
        "#script\n",
        script,
        "#end\n",
    ];
    joined(alloc, &parts)
}
