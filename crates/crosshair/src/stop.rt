ghost use Rattle.std.specs.Prelude.{◌≡◌};
ghost use Rattle.crosshair.specs.declared.stop.Stop.TheVariants as stop;

use xh_outside::{Failed, NoMemory};

/// Why a run ends early.
#[derive(Clone, Copy, Debug, PartialEq, Eq)]
pub enum Stop {
    /// There is no memory for what the run needs.
    NoMemory,
    /// A file can't be read.
    ReadFault,
    /// A write failed.
    WriteFault,
}

impl From<NoMemory> for Stop {
    ghost from_gives = { λ _ e. e ≡ stop.NoMemory };

    fn from(_: NoMemory) -> Self {
        Stop::NoMemory
    }
}

impl From<Failed> for Stop {
    ghost from_gives = { λ _ e. e ≡ stop.WriteFault };

    fn from(_: Failed) -> Self {
        Stop::WriteFault
    }
}
