// The parameters of a page.
ghost use Rattle.std.specs.Prelude.{◌≡◌};
ghost use Rattle.bl_feed.specs.Parameters.{parameter_name};

/// A parameter of a page of the stream, in the order in which they are looked at.
#[derive(Clone, Copy, Debug, PartialEq, Eq)]
pub enum StreamParameter {
    Limit,
    IteratorType,
    CommitNum,
    OpNum,
}

impl StreamParameter {
    pub fn name(self) -> &'static str
        ensures { result.now ≡ parameter_name self }
    {
        match self {
            StreamParameter::Limit => "limit",
            StreamParameter::IteratorType => "iteratorType",
            StreamParameter::CommitNum => "commitNum",
            StreamParameter::OpNum => "opNum",
        }
    }
}
