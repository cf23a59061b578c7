// What all four units share: a sum and some times over (S14), each within one unit.
ghost use Rattle.std.specs.Prelude.{◌≡◌, ℕ};
ghost use Rattle.units.specs.Units.{sum_of, times_of};

pub trait Amount: Sized {
    ghost count: { Self → ℕ };

    // So many of this unit.
    fn of(number: u64) -> Self
        ensures { count result ≡ number };

    // How many there are.
    fn number(self) -> u64
        ensures { result ≡ count self };

    // These and those, of the same unit.
    fn add(self, more: Self) -> Self
        ensures { count result ≡ sum_of (count self) (count more) }
    {
        Self::of(self.number().saturating_add(more.number()))
    }

    // These, some times over.
    fn times(self, n: u8) -> Self
        ensures { count result ≡ times_of (count self) n }
    {
        Self::of(self.number().saturating_mul(n as u64))
    }
}
