// The options that were read so far.
ghost use Rattle.std.specs.Prelude.{◌≡◌};
ghost use Rattle.bl_cli.specs.Options.{nothing_given, take_option};

use crate::load_option::LoadOption;
use bl_files::Mode;

/// What the options say that were read so far.
#[derive(Clone, Copy, Debug, PartialEq, Eq)]
pub struct Options {
    pub mode: Option<Mode>,
    pub keep_going: bool,
    pub update_single: bool,
    pub changes: bool,
}

impl Options {
    pub fn none() -> Options
        ensures { result ≡ nothing_given }
    {
        Options {
            mode: None,
            keep_going: false,
            update_single: false,
            changes: false,
        }
    }

    /// One more option. None where such a one was given already.
    pub fn with(self, option: LoadOption) -> Option<Options>
        ensures { result ≡ take_option self option }
    {
        let mut more = self;
        let before = match option {
            LoadOption::Mode(mode) => {
                more.mode = Some(mode);
                self.mode.is_some()
            }
            LoadOption::KeepGoing => {
                more.keep_going = true;
                self.keep_going
            }
            LoadOption::UpdateSingle => {
                more.update_single = true;
                self.update_single
            }
            LoadOption::Changes => {
                more.changes = true;
                self.changes
            }
        };
        if before { None } else { Some(more) }
    }
}
