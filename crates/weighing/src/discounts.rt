ghost use Rattle.std.specs.Prelude.{◌≡◌};
ghost use Rattle.weighing.specs.Discounts.{Discounted, discount_of, discounts};

// Of slots 0 to 12, in 256ths.
const DISCOUNTS: [u16; 13] = [
    256, 240, 225, 210, 196, 183, 171, 160, 150, 140, 131, 122, 114,
];

/// What a reward counts in a slot, in 256ths; 0 past slot 12. The rule of the table is in docs/FORMATS.md, "Discounts, weighings
/// and worths".
pub fn discount(slot: usize) -> u16
    ensures value { result ≡ discount_of slot }
    ensures rule { Discounted discounts }
{
    DISCOUNTS.get(slot).copied().unwrap_or(0)
}
