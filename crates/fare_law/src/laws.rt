//! Laws on the definitions.
ghost use Rattle.std.specs.Prelude.{◌≡◌, List, None};
ghost use Rattle.fare_law.specs.Limits.{IsPlace, IsRequest};
ghost use Rattle.fare_law.specs.Lists.{Each};
ghost use Rattle.fare_law.specs.Requests.{NamesPlaces, judged, judged_alone};
ghost use Rattle.fare_law.specs.declared.names.Place.{Place};
ghost use Rattle.fare_law.specs.declared.requests.Request.{Request};

/// A request between places of their form is within its limits exactly where no reason refuses it, and
/// one that is refused for no reason where places of their form are known is within its limits.
pub fn requests_are_judged()
    ensures limits { (q : Request) → Each NamesPlaces q.slices → judged_alone q ≡ None → IsRequest q }
    ensures allowed { (q : Request) → IsRequest q → judged_alone q ≡ None }
    ensures known { (places : List Place) (q : Request) → Each IsPlace places → judged places q ≡ None → IsRequest q }
{}
