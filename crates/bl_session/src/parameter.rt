// Parameters that may be refused.
ghost use Rattle.std.specs.Prelude.{◌≡◌};
ghost use Rattle.bl_session.specs.Problems.{parameter_name};

use bl_feed::StreamParameter;

/// A parameter of a request, behind the `?` of its target.
#[derive(Clone, Copy, Debug, PartialEq, Eq)]
pub enum Parameter {
    Limit,
    IncludeQueuedLoads,
    LoadId,
    Details,
    Errors,
    Page,
    ErrorsPerPage,
    /// One of a page of the stream.
    Stream(StreamParameter),
}

impl Parameter {
    pub fn name(self) -> &'static str
        ensures { result.now ≡ parameter_name self }
    {
        match self {
            Parameter::Limit => "limit",
            Parameter::IncludeQueuedLoads => "includeQueuedLoads",
            Parameter::LoadId => "loadId",
            Parameter::Details => "details",
            Parameter::Errors => "errors",
            Parameter::Page => "page",
            Parameter::ErrorsPerPage => "errorsPerPage",
            Parameter::Stream(parameter) => parameter.name(),
        }
    }
}
