// The two tables of route search side by side: the definitions stand in specs/, the laws in proofs/. A route found or made for it.
#![tactic(auto)]

ghost use Rattle.std.specs.Prelude.{◌≡◌};
ghost use Rattle.route_table.specs.Lent.{seen_table, seen_routes, place_in};
ghost use Rattle.standard.specs.Route.{route_or};

use route_table::RoutesSeen;
use standard::{RouteEntry, Status};
use types::Nwk;

// The route to a destination, whose place is given, or the one that would be made for it.
pub fn route_or(routes: &RoutesSeen, place: Result<usize, usize>, destination: Nwk) -> RouteEntry
    requires { place ≡ place_in (seen_table routes.now) destination.0 }
    ensures { result ≡ route_or destination (seen_routes routes.now) }
{
    match place {
        Ok(i) => routes.entry_at(i),
        Err(_) => { route_entry::new_route(destination, Status::Inactive, Nwk(0xFFFF)) }
    }
}
