//! Dated flights and the legs of an offer.
use crate::{Carrier, Place};

/// One flight on one day. The fields stand by their sizes, so that a flight takes 32 bytes.
#[derive(Clone, Copy, Default, PartialEq, Eq)]
pub struct Flight {
    /// The instant of departure, in minutes since 1970-01-01 00:00 UTC.
    pub dep: i64,
    /// The instant of arrival, in the same minutes.
    pub arr: i64,
    /// The local day of departure, in days since 1970-01-01.
    pub day: i32,
    /// The local minute of departure, 0 to 1439.
    pub minute: u16,
    /// 1 to 9999.
    pub number: u16,
    pub carrier: Carrier,
    pub from: Place,
    pub to: Place,
}
