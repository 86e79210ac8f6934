// Routes and methods.
ghost use Rattle.std.specs.Prelude.{◌≡◌};
ghost use Rattle.bl_session.specs.Routes.{methods_of, verb_of};

use http::Method;

/// What the path of a request names.
#[derive(Clone, Copy, Debug, PartialEq, Eq)]
pub enum Route {
    /// `/loader`: the list of loads.
    Loads,
    /// `/loader/{loadId}`: one load.
    Load,
    /// `/propertygraph/stream` and `/pg/stream`: the change stream.
    Stream,
}

/// The methods that a route may have.
#[derive(Clone, Copy, Debug, PartialEq, Eq)]
pub enum Verb {
    Get,
    Post,
    Delete,
}

impl Route {
    /// The methods that the route has, as an `allow` field names them.
    pub fn methods(self) -> &'static str
        ensures { result.now ≡ methods_of self }
    {
        match self {
            Route::Loads => "GET, POST, DELETE",
            Route::Load => "GET, DELETE",
            Route::Stream => "GET",
        }
    }
}

/// The method of a request. None where no route has it.
pub fn verb_of(method: &Method) -> Option<Verb>
    ensures { result ≡ verb_of method.now }
{
    match method.as_str() {
        "GET" => Some(Verb::Get),
        "POST" => Some(Verb::Post),
        "DELETE" => Some(Verb::Delete),
        _ => None,
    }
}
