// What a meter is given when it is made (paper 01, "The meter's record"; paper 02: a second address, request 3, and an order of words,
// request 5).
ghost use Rattle.std.specs.Prelude.{◌≡◌};
ghost use Rattle.meter.specs.Meters.{given_ok, new_of};

use crate::Meter;
use ratio::Ratios;
use refusal::Refusal;
use words::Order;

#[derive(Clone, Copy, Debug, PartialEq, Eq)]
pub struct Given {
    // Its own address, 1 to 255.
    pub address: u8,
    // The address that a tenant reads it by, or NO_SECOND.
    // Stays a number: request 3 has 0 for none, and a record may hold any byte.
    pub second: u8,
    pub ratios: Ratios,
    // Which word of a long it sends first, at either address.
    pub order: Order,
}

impl Given {
    // The second address of a meter that has none.
    pub const NO_SECOND: u8 = 0;

    // What a new meter of it is answered with: the first that applies.
    #[tactic(auto, unfolding(crate::specs::Meters::new_of))]
    pub(crate) fn judged(self) -> Result<(), Refusal>
        ensures { result ≡ (new_of self).answer }
    {
        if !self.ratios.within() {
            return Err(Refusal::RatioOutOfLimits);
        }
        if self.address < Meter::ADDRESS_LEAST {
            return Err(Refusal::OwnAddressZero);
        }
        if self.second == self.address {
            return Err(Refusal::MeterOutOfLimits);
        }
        Ok(())
    }

    // Stays beside `judged`: a record's limits are stated for themselves, without the refusals of a new meter and their order.
    pub(crate) fn within(self) -> bool
        ensures { result ≡ given_ok self }
    {
        (Meter::ADDRESS_LEAST <= self.address)
            & (self.second != self.address)
            & self.ratios.within()
    }
}
