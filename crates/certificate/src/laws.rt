//! What a certificate is worth, as laws for the crates above: a function calls the law it stands on.
ghost use Rattle.certificate.specs.CertOf.{OneCertificate, SameAnswers, SameByRuns, SearchMeetsChecks, YesIsBest};
ghost use Rattle.certificate.specs.declared.parts.Certificate.{Certificate};
ghost use Rattle.certificate.specs.Checks.{OneFailure};
ghost use Rattle.fare_law.specs.declared.requests.Request.{Request};
ghost use Rattle.fare_law.specs.Book.{Book};

/// Of the checks of a certificate one is the first that fails, at one place, and none where they hold.
/// No certificate is left out: it can't be that the checks don't hold and none is the first that fails.
pub fn one_failure()
    ensures { (c : Certificate) (b : Book) (q : Request) → OneFailure c b q }
{}

/// Yes implies best: where the checks hold of a certificate, its answers are the best tickets of the
/// book and the request, in their order and at their prices. Nothing is asked of the book, and of the
/// request only what the checks themselves ask: it has a first slice, since the root is a row.
/// So yes fixes the answers: where the live fares' keys are well formed, two certificates that meet the
/// checks of one book and one request have the same.
pub fn yes_is_best()
    ensures best { (c : Certificate) (b : Book) (q : Request) → YesIsBest c b q }
    ensures same { (b : Book) (q : Request) → SameAnswers b q }
{}

/// The certificate of a search meets the checks, where the timetable's flights stand in the order of
/// their departures, the live fares' keys are well formed, and the request has a first slice and asks
/// for at least one ticket. By best tickets or by least runs it is the same certificate, and where the
/// keys are well formed a book and a request have one.
pub fn search_meets_checks()
    ensures checks { (c : Certificate) (b : Book) (q : Request) → SearchMeetsChecks c b q }
    ensures runs { (c : Certificate) (b : Book) (q : Request) → SameByRuns c b q }
    ensures one { (b : Book) (q : Request) → OneCertificate b q }
{}
