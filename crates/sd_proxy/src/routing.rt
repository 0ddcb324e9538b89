ghost use Rattle.std.specs.Prelude.{◌≡◌};
ghost use Rattle.sd_model_proxy.specs.Routes.{route as route_of};
ghost use Rattle.sd_proxy.specs.Views.{IsInside};
ghost use Rattle.sd_proxy_desk.specs.Views.{route_view};

use sd_line::name_before_colon;
use sd_proxy_desk::Route;
use sd_ring::Ring;

/// Where a line goes: to the node that owns its key among those that are up. Bit i of `up` says that the node in place i is up,
/// and bits past the last node have no effect. A key for which the ring's cache has no memory is routed all the same.
pub fn route(ring: &mut Ring, line: &[u8], up: u64) -> Route
    ensures route { route_view result ≡ route_of line.now ring.old up }
    ensures node { IsInside result ring.old }
    ensures ring { ring.new ≡ ring.old }
{
    let Some(name) = name_before_colon(line) else {
        return Route::Bad;
    };
    match ring.owner_of_name(name, up) {
        Ok(Some(node)) => Route::Node(node),
        Ok(None) => Route::Unowned,
        Err(_) => Route::Bad,
    }
}
