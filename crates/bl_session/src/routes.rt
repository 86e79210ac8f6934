// The route of a path.
ghost use Rattle.std.specs.Prelude.{◌≡◌, ℕ, List, IfOk, option_map};
ghost use Rattle.matchit.specs.Seek.{first};
ghost use Rattle.bl_session.specs.Routes.{AreBytes, id_part, route_of, text_route};

use crate::route::Route;
use bl_outside::{NoMemory, Text, is_utf8};
use matchit::{InsertError, Router};
use std::alloc::Global;

// All routes with their paths.
fn routes(alloc: Global) -> Result<Router<Route>, InsertError>
    ensures { IfOk result (λ routes. (path : List ℕ) → AreBytes path
        → option_map (λ route. route.value) (first routes path) ≡ text_route path) }
{
    let mut routes = Router::new(alloc);
    routes.insert("/loader", Route::Loads)?;
    routes.insert("/loader/{loadId}", Route::Load)?;
    routes.insert("/propertygraph/stream", Route::Stream)?;
    routes.insert("/pg/stream", Route::Stream)?;
    Ok(routes)
}

fn text_route(alloc: Global, path: &str) -> Result<Option<Route>, NoMemory>
    ensures { IfOk result (λ route. route ≡ text_route path.now) }
{
    let Ok(routes) = routes(alloc) else {
        return Err(NoMemory);
    };
    match routes.at(path) {
        Ok(found) => Ok(Some(*found.value)),
        Err(_) => Ok(None),
    }
}

/// The route of a path. None where no route has it.
pub fn route_of(alloc: Global, path: &Text) -> Result<Option<Route>, NoMemory>
    ensures { IfOk result (λ route. route ≡ route_of path.now) }
{
    if is_utf8(path.as_slice()) {
        text_route(alloc, path.as_str())
    } else {
        Ok(None)
    }
}

/// How many bytes stand before the id in the path of one load.
const LOAD_PATH: usize = 8;

/// The id in the path of one load.
pub fn id_part(path: &Text) -> &[u8]
    ensures { result.now ≡ id_part path.now }
{
    let path = path.as_slice();
    &path[LOAD_PATH.min(path.len())..]
}
