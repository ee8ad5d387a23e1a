// Whole metres and 500-metre units, two measures that are kept apart: one turns into the other by
// `in_units` alone.
ghost use Rattle.std.specs.Prelude.{◌≡◌};
ghost use Rattle.ground.specs.Measure.{in_units, past_unit};

// Whole metres.
#[repr(C)]
#[derive(Clone, Copy)]
pub struct Metres(pub u32);

// Units of 500 metres.
#[repr(C)]
#[derive(Clone, Copy)]
pub struct Units(pub u32);

impl Metres {
    // Metres in a unit.
    pub const IN_A_UNIT: u32 = 500;

    // The whole units in these metres.
    pub fn in_units(self) -> Units
        ensures { result ≡ in_units self }
    {
        Units(self.0 / Metres::IN_A_UNIT)
    }

    // The metres past the last whole unit.
    pub fn past_unit(self) -> Metres
        ensures { result ≡ past_unit self }
    {
        Metres(self.0 % Metres::IN_A_UNIT)
    }
}
