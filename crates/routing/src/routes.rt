// The calls that change the route table alone.
ghost use Rattle.std.specs.Prelude.{◌≡◌};
ghost use Rattle.routing.specs.Routes.{refused_done, refused_told, mark_discovery_failed, record_usage, note_source_routed_frame, decay_activity, invalidate_via, restore_route, note_relayed_discovery, remove_route};

use crate::{DoneOutcome, Routing, ToldOutcome};
use route_table::{RouteValues, Routes};
use types::{Nwk, Refusal};

impl Routing {
    // The state as it came: it is not well formed.
    pub(crate) fn refuse_done(self) -> DoneOutcome
        ensures { result ≡ refused_done self }
    {
        DoneOutcome {
            answer: Err(Refusal::StateIllFormed),
            state: self,
        }
    }

    // The state as it came, for a refusal.
    pub(crate) fn refuse_told(self, refusal: Refusal) -> ToldOutcome
        ensures { result ≡ refused_told self refusal }
    {
        ToldOutcome {
            answer: Err(refusal),
            state: self,
        }
    }

    // No discovery of the way to a destination has brought one.
    pub fn mark_discovery_failed(self, destination: Nwk) -> DoneOutcome
        ensures { result ≡ mark_discovery_failed self destination }
    {
        if !self.formed() {
            return self.refuse_done();
        }
        let mut state = self;
        let mut routes = RouteValues {
            keys: &self.route_keys,
            words: &mut state.route_words,
            usage: &mut state.route_usage,
            count: state.routes,
        };
        route_calls::mark_discovery_failed(&mut routes, destination);
        DoneOutcome {
            answer: Ok(()),
            state,
        }
    }

    // A frame was forwarded along the route to a destination.
    pub fn record_usage(self, destination: Nwk) -> DoneOutcome
        ensures { result ≡ record_usage self destination }
    {
        if !self.formed() {
            return self.refuse_done();
        }
        let mut state = self;
        let mut routes = RouteValues {
            keys: &self.route_keys,
            words: &mut state.route_words,
            usage: &mut state.route_usage,
            count: state.routes,
        };
        route_calls::record_usage(&mut routes, destination);
        DoneOutcome {
            answer: Ok(()),
            state,
        }
    }

    // A source-routed frame of a concentrator shows that it holds our record.
    pub fn note_source_routed_frame(self, concentrator: Nwk) -> DoneOutcome
        ensures { result ≡ note_source_routed_frame self concentrator }
    {
        if !self.formed() {
            return self.refuse_done();
        }
        let mut state = self;
        let mut routes = RouteValues {
            keys: &self.route_keys,
            words: &mut state.route_words,
            usage: &mut state.route_usage,
            count: state.routes,
        };
        route_calls::note_source_routed_frame(&mut routes, concentrator);
        DoneOutcome {
            answer: Ok(()),
            state,
        }
    }

    // Once a link status period: the recent activity of every Active route goes down.
    pub fn decay_activity(self) -> DoneOutcome
        ensures { result ≡ decay_activity self }
    {
        if !self.formed() {
            return self.refuse_done();
        }
        let route_keys = self.route_keys;
        let mut route_words = self.route_words;
        let route_usage = self.route_usage;
        route_table::decay_activity(&route_keys, &mut route_words, &route_usage, self.routes);
        let mut state = self;
        state.route_words = route_words;
        DoneOutcome {
            answer: Ok(()),
            state,
        }
    }

    // A next hop is lost: every Active route by it is Inactive.
    pub fn invalidate_via(self, next_hop: Nwk) -> DoneOutcome
        ensures { result ≡ invalidate_via self next_hop }
    {
        if !self.formed() {
            return self.refuse_done();
        }
        let route_keys = self.route_keys;
        let mut route_words = self.route_words;
        let route_usage = self.route_usage;
        route_table::invalidate_via(
            &route_keys,
            &mut route_words,
            &route_usage,
            self.routes,
            next_hop,
        );
        let mut state = self;
        state.route_words = route_words;
        DoneOutcome {
            answer: Ok(()),
            state,
        }
    }

    // A client hands back a route on startup; the whole entry is written anew.
    pub fn restore_route(self, destination: Nwk, next_hop: Nwk, path_cost: u8) -> DoneOutcome
        ensures { result ≡ restore_route self destination next_hop path_cost }
    {
        if !self.formed() {
            return self.refuse_done();
        }
        let mut state = self;
        let mut routes = Routes {
            keys: &mut state.route_keys,
            words: &mut state.route_words,
            usage: &mut state.route_usage,
            count: state.routes,
        };
        let answer = route_calls::restore_route(&mut routes, destination, next_hop, path_cost);
        state.routes = routes.count;
        DoneOutcome { answer, state }
    }

    // A search of another's was relayed: the route to its destination is underway, unless it is Active.
    pub fn note_relayed_discovery(self, destination: Nwk) -> DoneOutcome
        ensures { result ≡ note_relayed_discovery self destination }
    {
        if !self.formed() {
            return self.refuse_done();
        }
        let mut state = self;
        let mut routes = Routes {
            keys: &mut state.route_keys,
            words: &mut state.route_words,
            usage: &mut state.route_usage,
            count: state.routes,
        };
        let answer = route_calls::note_relayed_discovery(&mut routes, destination);
        state.routes = routes.count;
        DoneOutcome { answer, state }
    }

    // The route to a destination is removed; whether there was one.
    pub fn remove_route(self, destination: Nwk) -> ToldOutcome
        ensures { result ≡ remove_route self destination }
    {
        if !self.formed() {
            return self.refuse_told(Refusal::StateIllFormed);
        }
        let mut state = self;
        let mut routes = Routes {
            keys: &mut state.route_keys,
            words: &mut state.route_words,
            usage: &mut state.route_usage,
            count: state.routes,
        };
        let removed = route_calls::remove_route(&mut routes, destination);
        state.routes = routes.count;
        ToldOutcome {
            answer: Ok(removed),
            state,
        }
    }
}
