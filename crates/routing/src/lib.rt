// The routing state by value, and every call on it. Each call tests the state and lends the tables of a copy to the rule, which changes them there.
#![tactic(auto)]

mod queries;
mod records;
mod routes;

ghost use Rattle.std.specs.Prelude.{◌≡◌};
ghost use Rattle.route_table.specs.Table as route;
ghost use Rattle.discovery_table.specs.Table as discovery;
ghost use Rattle.record_table.specs.Table as record_of;
ghost use Rattle.routing.specs.State.{well_formed, formed_in, fresh};
ghost use Rattle.routing.specs.Search.{accept_route_reply, accept_route_request, begin_discovery, begin_many_to_one_advertisement};

use discovery_table::{Discoveries, DiscoveryValues};
use route_calls::Checked;
use route_table::Routes;
use standard::{ManyToOne, RecordEntry, RelayList, RouteReplyDisposition, RouteUpdate};
use types::{Nwk, Refusal};

// The trigger counters, the last request id, and the columns of the three tables: routes, discoveries, route records.
#[derive(Clone, Copy)]
pub struct Routing {
    pub mtorr_route_errors: u8,
    pub mtorr_delivery_failures: u8,
    pub request_sequence_number: u8,
    pub route_keys: [u16; 64],
    pub route_words: [u64; 64],
    pub route_usage: [u32; 64],
    pub routes: usize,
    pub discovery_keys: [u32; 32],
    pub discovery_words: [u64; 32],
    pub discovery_ends: [u64; 32],
    pub discoveries: usize,
    pub record_keys: [u16; 64],
    pub record_lengths: [u8; 64],
    pub records: usize,
}

// That a call is done or refused, and the state after it.
#[derive(Drop)]
pub struct DoneOutcome {
    pub answer: Result<(), Refusal>,
    pub state: Routing,
}

#[derive(Drop)]
pub struct ToldOutcome {
    pub answer: Result<bool, Refusal>,
    pub state: Routing,
}

// A reply's answer, and the state after it.
#[derive(Drop)]
pub struct RouteReplyOutcome {
    pub answer: Result<(RouteReplyDisposition, Option<RouteUpdate>), Refusal>,
    pub state: Routing,
}

// A request's answer, and the state after it.
#[derive(Drop)]
pub struct RouteRequestOutcome {
    pub answer: Result<(bool, Option<RouteUpdate>), Refusal>,
    pub state: Routing,
}

// The request id of what was begun, and the state after it.
#[derive(Drop)]
pub struct BeginOutcome {
    pub answer: Result<u8, Refusal>,
    pub state: Routing,
}

// Whether a route record changed what is known of its source, and the state after it.
#[derive(Drop)]
pub struct RecordOutcome {
    pub answer: Result<bool, Refusal>,
    pub state: Routing,
}

// The relays of a record that is found are beside the answer; they are blank beside any other.
#[derive(Drop)]
pub struct RecordAtOutcome {
    pub answer: Result<Option<RecordEntry>, Refusal>,
    pub relays: RelayList,
}

// The way to a destination, asked.
#[derive(Drop)]
pub enum RouteToAnswer {
    NoRoute,
    NextHop(Nwk),
    SourceRoute,
}

// The relays of a source route are beside the answer; they are blank beside any other.
#[derive(Drop)]
pub struct RouteToOutcome {
    pub answer: Result<RouteToAnswer, Refusal>,
    pub relays: RelayList,
}

// Whether the columns of the three tables are well formed.
pub fn columns_formed<'a>(
    route_keys: &'a [u16],
    route_words: &'a [u64],
    route_usage: &'a [u32],
    routes: usize,
    discovery_keys: &'a [u32],
    discovery_words: &'a [u64],
    discovery_ends: &'a [u64],
    discoveries: usize,
    record_keys: &'a [u16],
    record_lengths: &'a [u8],
    records: usize,
) -> bool
    ensures { result ≡ formed_in (route.in_columns route_keys.now route_words.now route_usage.now routes) (discovery.in_columns discovery_keys.now discovery_words.now discovery_ends.now discoveries) (record_of.in_columns record_keys.now record_lengths.now records) }
{
    let routes_fine = route_table::well_formed(route_keys, route_words, route_usage, routes);
    let discoveries_fine = discovery_table::well_formed(
        discovery_keys,
        discovery_words,
        discovery_ends,
        discoveries,
    );
    let records_fine = record_table::well_formed(record_keys, record_lengths, records);
    routes_fine & (discoveries_fine & records_fine)
}

impl Routing {
    // Empty tables, counters 0 and request id 0.
    pub fn new() -> Routing
        ensures { result ≡ fresh }
    {
        Routing {
            mtorr_route_errors: 0,
            mtorr_delivery_failures: 0,
            request_sequence_number: 0,
            route_keys: [0; 64],
            route_words: [0; 64],
            route_usage: [0; 64],
            routes: 0,
            discovery_keys: [0; 32],
            discovery_words: [0; 32],
            discovery_ends: [0; 32],
            discoveries: 0,
            record_keys: [0; 64],
            record_lengths: [0; 64],
            records: 0,
        }
    }

    // Whether the three tables are well formed, tested where they stand.
    fn formed(&self) -> bool
        ensures { result ≡ well_formed self.now }
    {
        columns_formed(
            &self.route_keys,
            &self.route_words,
            &self.route_usage,
            self.routes,
            &self.discovery_keys,
            &self.discovery_words,
            &self.discovery_ends,
            self.discoveries,
            &self.record_keys,
            &self.record_lengths,
            self.records,
        )
    }

    // Whether the three tables are well formed.
    pub fn well_formed(self) -> bool
        ensures { result ≡ well_formed self }
    {
        self.formed()
    }

    // A route reply heard from `sender`: dropped, established for our own search, or to be relayed.
    pub fn accept_route_reply(
        self,
        own: Nwk,
        originator: Nwk,
        request_id: u8,
        responder: Nwk,
        sender: Nwk,
        updated_path_cost: u8,
    ) -> RouteReplyOutcome
        ensures { result ≡ accept_route_reply self own originator request_id responder sender updated_path_cost }
    {
        if !self.formed() {
            return RouteReplyOutcome {
                answer: Err(Refusal::StateIllFormed),
                state: self,
            };
        }
        let mut state = self;
        let mut routes = Routes {
            keys: &mut state.route_keys,
            words: &mut state.route_words,
            usage: &mut state.route_usage,
            count: state.routes,
        };
        let mut discoveries = DiscoveryValues {
            keys: &self.discovery_keys,
            words: &mut state.discovery_words,
            ends: &mut state.discovery_ends,
            count: state.discoveries,
        };
        let answer = route_reply::reply(
            &mut routes,
            &mut discoveries,
            own,
            originator,
            request_id,
            responder,
            sender,
            updated_path_cost,
        );
        state.routes = routes.count;
        RouteReplyOutcome { answer, state }
    }

    // A route request heard from `sender`: whether it is accepted, and what it did to the originator's route.
    pub fn accept_route_request(
        self,
        originator: Nwk,
        request_id: u8,
        destination: Nwk,
        sender: Nwk,
        updated_path_cost: u8,
        many_to_one: ManyToOne,
        now: u64,
        route_discovery_time: u64,
    ) -> RouteRequestOutcome
        ensures { result ≡ accept_route_request self originator request_id destination sender updated_path_cost many_to_one now route_discovery_time }
    {
        if !self.formed() {
            return RouteRequestOutcome {
                answer: Err(Refusal::StateIllFormed),
                state: self,
            };
        }
        let mut state = self;
        let mut routes = Routes {
            keys: &mut state.route_keys,
            words: &mut state.route_words,
            usage: &mut state.route_usage,
            count: state.routes,
        };
        let mut discoveries = Discoveries {
            keys: &mut state.discovery_keys,
            words: &mut state.discovery_words,
            ends: &mut state.discovery_ends,
            count: state.discoveries,
        };
        let answer = route_request::request(
            &mut routes,
            &mut discoveries,
            originator,
            request_id,
            destination,
            sender,
            updated_path_cost,
            many_to_one,
            now,
            route_discovery_time,
        );
        let n = routes.count;
        let m = discoveries.count;
        state.routes = n;
        state.discoveries = m;
        RouteRequestOutcome { answer, state }
    }

    // A search of our own: the route becomes DiscoveryUnderway; the answer is the request id.
    pub fn begin_discovery(
        self,
        own: Nwk,
        destination: Nwk,
        now: u64,
        route_discovery_time: u64,
    ) -> BeginOutcome
        ensures { result ≡ begin_discovery self own destination now route_discovery_time }
    {
        if !self.formed() {
            return BeginOutcome {
                answer: Err(Refusal::StateIllFormed),
                state: self,
            };
        }
        let id = types::next_id(self.request_sequence_number);
        let mut state = self;
        let mut routes = Routes {
            keys: &mut state.route_keys,
            words: &mut state.route_words,
            usage: &mut state.route_usage,
            count: state.routes,
        };
        let mut discoveries = Discoveries {
            keys: &mut state.discovery_keys,
            words: &mut state.discovery_words,
            ends: &mut state.discovery_ends,
            count: state.discoveries,
        };
        let answer = route_begin::begin(
            &mut routes,
            &mut discoveries,
            own,
            id,
            destination,
            now,
            route_discovery_time,
        );
        let n = routes.count;
        let m = discoveries.count;
        state.routes = n;
        state.discoveries = m;
        let Ok(_) = answer else {
            return BeginOutcome {
                answer,
                state: self,
            };
        };
        state.request_sequence_number = id;
        BeginOutcome { answer, state }
    }

    // A many-to-one advertisement: the entry that stops its echoes; the answer is the request id.
    pub fn begin_many_to_one_advertisement(
        self,
        own: Nwk,
        now: u64,
        route_discovery_time: u64,
    ) -> BeginOutcome
        ensures { result ≡ begin_many_to_one_advertisement self own now route_discovery_time }
    {
        if !self.formed() {
            return BeginOutcome {
                answer: Err(Refusal::StateIllFormed),
                state: self,
            };
        }
        let id = types::next_id(self.request_sequence_number);
        let mut state = self;
        let mut routes = Routes {
            keys: &mut state.route_keys,
            words: &mut state.route_words,
            usage: &mut state.route_usage,
            count: state.routes,
        };
        let mut discoveries = Discoveries {
            keys: &mut state.discovery_keys,
            words: &mut state.discovery_words,
            ends: &mut state.discovery_ends,
            count: state.discoveries,
        };
        let answer = route_begin::advertise(
            &mut routes,
            &mut discoveries,
            own,
            id,
            now,
            route_discovery_time,
        );
        let n = routes.count;
        let m = discoveries.count;
        state.routes = n;
        state.discoveries = m;
        let Ok(_) = answer else {
            return BeginOutcome {
                answer,
                state: self,
            };
        };
        state.request_sequence_number = id;
        BeginOutcome { answer, state }
    }
}
