//! A worked case of one flight and one fare: a certificate that meets the checks, and one for each
//! check that fails it. A wrong sentence in a definition shows here.
ghost use Rattle.certificate.specs.CertOf.{CertOf};
ghost use Rattle.certificate.specs.Checks.{Checks};
ghost use Rattle.certificate.specs.OneWay.{FailsAt, one_way_answer, one_way_book, one_way_certificate, one_way_request, one_way_right, one_way_row};
ghost use Rattle.std.specs.Prelude.{ℕ, ◌<◌, ◌≢◌, ◌≤◌, [], ◌∷◌};

/// The fare is 20,000: the certificate meets the checks with each bound of its one row up to that.
pub fn one_way_meets()
    ensures { (bound : ℕ) → bound ≤ 20000 → Checks (one_way_certificate bound) one_way_book one_way_request }
{}

/// With the fare's amount as the bound it is the certificate of a search, with no smaller bound it is one.
pub fn one_way_of()
    ensures right { CertOf one_way_book one_way_request one_way_right }
    ensures smaller { (bound : ℕ) → bound < 20000 → CertOf one_way_book one_way_request (one_way_certificate bound) → ⊥ }
{}

/// The case changed. The row check fails without the row and at the second of two equal rows; the bound
/// check at a greater bound; the answer check at another price and at the second of two equal answers; the
/// departure check without the answer, since the root's move then departs; and the request check at
/// another version and another request.
pub fn one_way_fails()
    ensures no_row { FailsAt (record one_way_right { rows = [] }) 1 0 }
    ensures row_twice { FailsAt (record one_way_right { rows = one_way_row 20000 ∷ one_way_row 20000 ∷ [] }) 1 2 }
    ensures bound { (bound : ℕ) → 20000 < bound → FailsAt (one_way_certificate bound) 2 1 }
    ensures price { (price : ℕ) → price ≢ 20000 → FailsAt (record one_way_right { answers = record one_way_answer { price = price } ∷ [] }) 3 1 }
    ensures answer_twice { FailsAt (record one_way_right { answers = one_way_answer ∷ one_way_answer ∷ [] }) 3 2 }
    ensures no_answer { FailsAt (record one_way_right { answers = [] }) 4 0 }
    ensures version { (n : ℕ) → n ≢ 1 → FailsAt (record one_way_right { number = n }) 5 1 }
    ensures request { FailsAt (record one_way_right { request = record one_way_request { best = 4 } }) 5 2 }
{}
