//! The values that a setting takes.
ghost use Rattle.std.specs.Prelude.{◌↔◌, IsTrue};
ghost use Rattle.pd_settings.specs.Keys.{Allows};
ghost use Rattle.pd_settings.specs.declared.values.Value.TheVariants.{Number};

/// The values that a setting takes.
#[derive(Clone, Copy, PartialEq, Eq)]
pub enum AllowedValues {
    /// The whole numbers from the first up to the second, both included.
    Numbers(u64, u64),
    /// The truth values.
    Booleans,
    /// The rules for the initial window.
    WindowRules,
    /// The rules for the rate of loss recovery.
    Algorithms,
}

impl AllowedValues {
    /// Whether the number is one of the domain.
    pub fn contains_number(&self, number: u64) -> bool
        ensures { IsTrue result ↔ Allows self.now (Number number) }
    {
        match self {
            AllowedValues::Numbers(least, greatest) => *least <= number && number <= *greatest,
            AllowedValues::Booleans | AllowedValues::WindowRules | AllowedValues::Algorithms =>
                false,
        }
    }
}
