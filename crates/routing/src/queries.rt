// The calls that ask, and the two trigger counters.
ghost use Rattle.std.specs.Prelude.{◌≡◌};
ghost use Rattle.route_table.specs.Lent as route;
ghost use Rattle.discovery_table.specs.Lent as discovery;
ghost use Rattle.routing.specs.State.{WellFormed, route_table, discovery_table};
ghost use Rattle.routing.specs.Routes.{routes_in};
ghost use Rattle.route_calls.specs.Answer.{hop_answer};
ghost use Rattle.standard.specs.Calls.{hop_at};
ghost use Rattle.routing.specs.Queries.{route_status, discovery_deadline, route_count, discovery_count, route_at, discovery_at, check_tables, next_hop_of, note_route_error, note_delivery_failure, reset_mtorr_triggers};

use crate::{DoneOutcome, Routing, ToldOutcome};
use discovery_table::DiscoveriesSeen;
use route_calls::Checked;
use route_table::RoutesSeen;
use standard::{DiscoveryEntry, RouteEntry, Status};
use types::{Nwk, Refusal};

impl Routing {
    // The routes of a state, for questions.
    pub fn routes_seen(&self) -> RoutesSeen<'_>
        requires { WellFormed self.now }
        ensures { route.seen_table result ≡ route_table self.now }
    {
        RoutesSeen {
            keys: &self.route_keys,
            words: &self.route_words,
            usage: &self.route_usage,
            count: self.routes,
        }
    }

    // The discoveries of a state, for questions.
    pub fn discoveries_seen(&self) -> DiscoveriesSeen<'_>
        requires { WellFormed self.now }
        ensures { discovery.seen_table result ≡ discovery_table self.now }
    {
        DiscoveriesSeen {
            keys: &self.discovery_keys,
            words: &self.discovery_words,
            ends: &self.discovery_ends,
            count: self.discoveries,
        }
    }

    // How the route to a destination stands.
    pub fn route_status(self, destination: Nwk) -> Result<Option<Status>, Refusal>
        ensures { result ≡ route_status self destination }
    {
        if !self.formed() {
            return Err(Refusal::StateIllFormed);
        }
        let answer = route_calls::route_status(&self.routes_seen(), destination);
        Ok(answer)
    }

    // When the first live discovery of the way to a destination is over.
    pub fn discovery_deadline(self, destination: Nwk, now: u64) -> Result<Option<u64>, Refusal>
        ensures { result ≡ discovery_deadline self destination now }
    {
        if !self.formed() {
            return Err(Refusal::StateIllFormed);
        }
        let answer = self.discoveries_seen().discovery_deadline(destination, now);
        Ok(answer)
    }

    // How many routes there are.
    pub fn route_count(self) -> Result<usize, Refusal>
        ensures { result ≡ route_count self }
    {
        if !self.formed() {
            return Err(Refusal::StateIllFormed);
        }
        Ok(self.routes)
    }

    // How many discoveries there are.
    pub fn discovery_count(self) -> Result<usize, Refusal>
        ensures { result ≡ discovery_count self }
    {
        if !self.formed() {
            return Err(Refusal::StateIllFormed);
        }
        Ok(self.discoveries)
    }

    // The route at a place in ascending order, and nothing from the count on.
    pub fn route_at(self, place: usize) -> Result<Option<RouteEntry>, Refusal>
        ensures { result ≡ route_at self place }
    {
        if !self.formed() {
            return Err(Refusal::StateIllFormed);
        }
        let answer = self.routes_seen().at(place);
        Ok(answer)
    }

    // The discovery at a place in ascending order, and nothing from the count on.
    pub fn discovery_at(self, place: usize) -> Result<Option<DiscoveryEntry>, Refusal>
        ensures { result ≡ discovery_at self place }
    {
        if !self.formed() {
            return Err(Refusal::StateIllFormed);
        }
        let answer = self.discoveries_seen().at(place);
        Ok(answer)
    }

    // The table check: sound, or the first fault in ascending order of destination.
    pub fn check(self) -> Result<Checked, Refusal>
        ensures { result ≡ check_tables self }
    {
        if !self.formed() {
            return Err(Refusal::StateIllFormed);
        }
        let answer = route_calls::check(&self.routes_seen(), &self.discoveries_seen());
        Ok(answer)
    }

    // The hop that the Active route to a destination names, on a state that is well formed.
    pub fn active_hop(self, destination: Nwk) -> Result<Option<Nwk>, Refusal>
        requires { WellFormed self }
        ensures { result ≡ hop_answer (hop_at destination.0 (routes_in self)) }
    {
        let keys = self.route_keys;
        let words = self.route_words;
        let usage = self.route_usage;
        let count = self.routes;
        let routes = RoutesSeen {
            keys: &keys,
            words: &words,
            usage: &usage,
            count,
        };
        route_calls::next_hop(&routes, destination)
    }

    // The next hop to a destination by its Active route. A hop that is not known is refusal 6.
    pub fn next_hop(self, destination: Nwk) -> Result<Option<Nwk>, Refusal>
        ensures { result ≡ next_hop_of self destination }
    {
        if !self.formed() {
            return Err(Refusal::StateIllFormed);
        }
        self.active_hop(destination)
    }

    // A route failure was heard: whether the signals reach the threshold.
    pub fn note_route_error(self, threshold: u8) -> ToldOutcome
        ensures { result ≡ note_route_error self threshold }
    {
        if !self.formed() {
            return self.refuse_told(Refusal::StateIllFormed);
        }
        let count = self.mtorr_route_errors.saturating_add(1);
        let mut state = self;
        state.mtorr_route_errors = count;
        ToldOutcome {
            answer: Ok(threshold <= count),
            state,
        }
    }

    // A delivery of our own failed: whether the signals reach the threshold.
    pub fn note_delivery_failure(self, threshold: u8) -> ToldOutcome
        ensures { result ≡ note_delivery_failure self threshold }
    {
        if !self.formed() {
            return self.refuse_told(Refusal::StateIllFormed);
        }
        let count = self.mtorr_delivery_failures.saturating_add(1);
        let mut state = self;
        state.mtorr_delivery_failures = count;
        ToldOutcome {
            answer: Ok(threshold <= count),
            state,
        }
    }

    // A many-to-one request went out: the signals are spent.
    pub fn reset_mtorr_triggers(self) -> DoneOutcome
        ensures { result ≡ reset_mtorr_triggers self }
    {
        if !self.formed() {
            return self.refuse_done();
        }
        let mut state = self;
        state.mtorr_route_errors = 0;
        state.mtorr_delivery_failures = 0;
        DoneOutcome {
            answer: Ok(()),
            state,
        }
    }
}
