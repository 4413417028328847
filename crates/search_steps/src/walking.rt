//! A case by numbers, as the steps of a walk.
ghost use Rattle.std.proofs.Common.{◌∙◌, ap, refl};
ghost use Rattle.std.specs.Borrow.{Bor};
ghost use Rattle.std.specs.Prelude.{◌≡◌, ⊤};
ghost use Rattle.fare_law.specs.declared.requests.Request.{Request as Asked};
ghost use Rattle.fare_law.specs.Book.{Book};
ghost use Rattle.fare_law.specs.Limits.{IsRequest};
ghost use Rattle.residual_keys.specs.Residuals.{State as Left};
ghost use Rattle.residual_table.specs.Keys.{Grows, IsLive, residual_at};
ghost use Rattle.search_steps.specs.Leads.{leads_of, level_of};

use crate::Case;
use crate::numbered_case::NumberedCase;
use graph_walk::{Outcome, Steps};
use residual_table::ResidualKey;
use std::alloc::{AllocError, Global};

impl<'a> Steps<ResidualKey, Case<'a>> for NumberedCase<'a> {
    ghost State = { Left };

    ghost fits = { λ c s. IsRequest c.request.now × (s.book.now ≡ c.book.now) × (s.request.now ≡ c.request.now) };

    ghost leads = { λ c x next price. leads_of c.book.now c.request.now x next price };

    ghost level = { level_of };

    ghost known = { λ _ _ _. ⊤ };

    ghost later = { λ s t. (t.book ≡ s.book) × (t.request ≡ s.request) × Grows s.numbers t.numbers };

    ghost live = { λ s key. IsLive s.numbers key };

    ghost state = { λ s key. residual_at s.numbers key };

    fn outcomes(
        &mut self,
        alloc: Global,
        _context: &Case<'a>,
        key: ResidualKey,
    ) -> Result<Vec<Outcome<ResidualKey>>, AllocError> {
        let found = NumberedCase::outcomes(self, alloc, key);
        self.keys_tell();
        match found {
            Ok(outcomes) => Ok(outcomes),
            Err(_) => Err(AllocError),
        }
    }

    fn take_back(&mut self, outcomes: Vec<Outcome<ResidualKey>>)
        ensures { self.new ≡ self.old }
    {
        NumberedCase::take_back(self, outcomes);
    }

    ghost same = { λ s. (refl, refl, record { positions = λ n x h. h; units = λ n x h. h }) };

    ghost further = { λ s t u a b. (b.0 ∙ a.0, b.1 ∙ a.1, record { positions = λ n x h. b.2.positions n x (a.2.positions n x h); units = λ n x h. b.2.units n x (a.2.units n x h) }) };

    ghost fitting = { λ c s t l f. (f.0, ap (λ (k : Bor Book). k.now) l.0 ∙ f.1, ap (λ (k : Bor Asked). k.now) l.1 ∙ f.2) };

    ghost stays = { λ _ _ _ _ _ _. tt };
}
