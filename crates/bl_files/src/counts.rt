// Numbers of records.
ghost use Rattle.std.specs.Prelude.{◌≡◌};
ghost use Rattle.bl_files.specs.Carried.{no_counts};

/// How many records a file or a job has, how many of them said nothing new, and how many were
/// refused, by the class of their code.
#[derive(Clone, Copy, Debug, PartialEq, Eq)]
pub struct Counts {
    pub records: u64,
    pub duplicates: u64,
    pub parsing: u64,
    pub datatype: u64,
    pub insert: u64,
}

impl Counts {
    /// No record was counted.
    pub fn none() -> Counts
        ensures { result ≡ no_counts }
    {
        Counts {
            records: 0,
            duplicates: 0,
            parsing: 0,
            datatype: 0,
            insert: 0,
        }
    }
}
