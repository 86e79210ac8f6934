// Why a record has no row.
ghost use Rattle.std.specs.Prelude.{◌≡◌};

use bl_outside::NoMemory;
use bl_value::LogCode;

/// Why a record has no row.
#[derive(Clone, Copy, Debug, PartialEq, Eq)]
pub enum Refused {
    /// A rule is broken. The column is counted from 1, and 0 where the rule is about the whole
    /// record.
    Fault { code: LogCode, column: u32 },
    NoMemory,
}

impl From<NoMemory> for Refused {
    ghost use Rattle.bl_rows.specs.declared.refused.Refused.TheVariants.{NoMemory as out_of_memory};

    ghost from_gives = { λ _ e. e ≡ out_of_memory };

    fn from(_: NoMemory) -> Refused {
        Refused::NoMemory
    }
}
