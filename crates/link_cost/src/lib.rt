// The cost of a link by the quality at which it is heard.
#![tactic(auto)]

ghost use Rattle.std.specs.Prelude.{◌≡◌};
ghost use Rattle.standard.specs.LinkCost.{link_cost};

// The cost of a link of quality `lqi`, from 7 down to 1 as it gets better.
pub fn lqi_to_link_cost(lqi: u8) -> u8
    ensures { result ≡ link_cost lqi }
{
    match lqi {
        0..=16 => 7,
        17..=32 => 6,
        33..=64 => 5,
        65..=96 => 4,
        97..=128 => 3,
        129..=192 => 2,
        193..=255 => 1,
    }
}
