// What was planned for a job.
ghost use Rattle.std.specs.Prelude.{◌≡◌, ◌↔◌, true, IsTrue};
ghost use Rattle.bl_files.specs.Plans.{
  HasFileCodes,
  HasNames,
  HasRisingNames,
  HaveFileCodes,
  NamesRise,
};
ghost use Rattle.bl_files.specs.Carried.{DifferentNames, found_names};

use crate::Found;
use bl_outside::List;

/// What a job is to read, or why it ends before it reads anything.
#[derive(Debug, Drop)]
pub enum PlanResult {
    /// The files that were found, in the order of the bytes of their names.
    Feeds(List<Found>),
    /// The load is to be resumed, and there is no previous one of this source.
    NoPrevious,
    SourceNotFound,
    /// The source could not be listed or planned.
    ListFault,
    /// The load would have so many files.
    TooManyFiles(u64),
}

impl PlanResult {
    /// The names of the files that were found rise by their bytes, so none was found twice.
    pub fn has_rising_names(&self) -> bool
        ensures rise { IsTrue result ↔ HasRisingNames self.now }
        ensures differ { IsTrue result → HasNames self.now }
    {
        match self {
            PlanResult::Feeds(found) => names_rise(found.as_slice()),
            _ => true,
        }
    }

    /// Each file that isn't read has the code of a file.
    pub fn has_file_codes(&self) -> bool
        ensures { IsTrue result ↔ HasFileCodes self.now }
    {
        match self {
            PlanResult::Feeds(found) => have_file_codes(found.as_slice()),
            _ => true,
        }
    }
}

/// The names rise by their bytes.
pub fn names_rise(found: &[Found]) -> bool
    ensures rise { IsTrue result ↔ NamesRise found.now }
    ensures differ { IsTrue result → DifferentNames (found_names found.now) }
{
    for i in 1..found.len() {
        if !found[i - 1].name.cmp(&found[i].name).is_lt() {
            return false;
        }
    }
    true
}

fn have_file_codes(found: &[Found]) -> bool
    ensures { IsTrue result ↔ HaveFileCodes found.now }
{
    found.iter().all(|file| file.kind.has_file_code())
}
