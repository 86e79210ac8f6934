// The options of `load`.
use bl_files::Mode;

/// An option of `load`, as it is given.
#[derive(Clone, Copy, Debug, PartialEq, Eq)]
pub enum LoadOption {
    /// `--mode`, with `NEW`, `RESUME` or `AUTO`.
    Mode(Mode),
    /// `--keep-going`: go on behind a record that is refused.
    KeepGoing,
    /// `--update-single`: a new single value takes the place of the old one.
    UpdateSingle,
    /// `--changes`: print the changes.
    Changes,
}
