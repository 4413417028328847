//! What follows of a list of offers.
ghost use Rattle.fare_law.specs.declared.market.OfferKey.{OfferKey};
ghost use Rattle.fare_component.specs.Keys.{asked};
ghost use Rattle.fare_component.specs.Offers.{HasLowPrices, HasNoOffers, HasOneList, OffersNothing, SameOffers};

use fare_rules::limits_are_met;

/// A key has one list of offers.
pub fn one_list()
    ensures { (key : OfferKey) → HasOneList key }
{}

/// Keys that ask for the same have the same offers.
pub fn same_offers()
    ensures { (one other : OfferKey) → SameOffers one other }
{}

/// What a key without offers asks for has no offers, whichever key asks for it.
pub fn no_offers()
    ensures { (key : OfferKey) → OffersNothing key → HasNoOffers (asked key) }
{}

/// An offer of a key within its limits costs at most 1,035,000,000.
pub fn prices_are_low()
    ensures { (key : OfferKey) → HasLowPrices key }
{
    limits_are_met();
}
