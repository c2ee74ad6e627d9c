// Whether the list of a host source route is too long.
ghost use Rattle.std.specs.Prelude.{◌≡◌};
ghost use Rattle.next_hop.specs.Decision.{host_long, directive_long, names_long};

use crate::SendMode;
use hop_choice::{HostRoute, RouteDirective, SendKind};
use standard::RelayList;

fn host_long(route: HostRoute, relays: RelayList) -> bool
    ensures { result ≡ host_long relays route }
{
    match route {
        HostRoute::NextHop(_) => false,
        HostRoute::SourceRoute => 32 < relays.count,
    }
}

fn directive_long(directive: RouteDirective, relays: RelayList) -> bool
    ensures { result ≡ directive_long relays directive }
{
    match directive {
        RouteDirective::StackDecides => false,
        RouteDirective::Hint(route) => host_long(route, relays),
        RouteDirective::Force(route) => host_long(route, relays),
    }
}

impl SendMode {
    // Whether the mode names a source route of more than 32 relays, applied or not.
    pub fn names_long(self) -> bool
        ensures { result ≡ names_long self }
    {
        let kind = self.kind;
        let relays = self.relays;
        match kind {
            SendKind::Direct => false,
            SendKind::Route(directive) => directive_long(directive, relays),
        }
    }
}
