// The calls on route records, whose relays are in a lent store.
ghost use Rattle.std.specs.Prelude.{◌≡◌};
ghost use Rattle.relay_store.specs.Store.{agrees, Agrees};
ghost use Rattle.record_table.specs.Lent.{seen_table};
ghost use Rattle.route_table.specs.Lent.{seen_routes};
ghost use Rattle.routing.specs.State.{WellFormed, record_table};
ghost use Rattle.routing.specs.Records.{refused_record, refused_way, store_route_record, store_after_record, remove_route_record, store_after_removal, hop_to, answer_in, answer_by, route_to_core, route_to, route_to_default, record_count, refused_record_at, record_at};

use crate::{RecordAtOutcome, RecordOutcome, RouteToAnswer, RouteToOutcome, Routing, ToldOutcome};
use record_table::{Records, RecordsSeen};
use route_table::RoutesSeen;
use standard::{RecordEntry, RecordRoute, RelayList};
use types::{Nwk, Refusal};

// The hop that the route table names, as the way: one that is not known is refusal 6.
fn hop_to(hop: Result<Option<Nwk>, Refusal>) -> Result<RouteToAnswer, Refusal>
    ensures { result ≡ hop_to hop }
{
    match hop {
        Ok(None) => Ok(RouteToAnswer::NoRoute),
        Ok(Some(n)) => Ok(RouteToAnswer::NextHop(n)),
        Err(why) => Err(why),
    }
}

// No way, for a refusal.
fn refuse_way(refusal: Refusal) -> RouteToOutcome
    ensures { result ≡ refused_way refusal }
{
    let relays = relay_store::no_relays();
    RouteToOutcome {
        answer: Err(refusal),
        relays,
    }
}

// No record, for a refusal.
fn refuse_record_at(refusal: Refusal) -> RecordAtOutcome
    ensures { result ≡ refused_record_at refusal }
{
    let relays = relay_store::no_relays();
    RecordAtOutcome {
        answer: Err(refusal),
        relays,
    }
}

// What a record's word on the way comes to, by routes that are lent: where it names none, the Active route decides.
fn answer_on(
    routes: &RoutesSeen,
    destination: Nwk,
    way: Option<RecordRoute>,
) -> Result<RouteToAnswer, Refusal>
    ensures { result ≡ answer_in (seen_routes routes.now) destination way }
{
    match way {
        Some(RecordRoute::Direct) => Ok(RouteToAnswer::NextHop(destination)),
        Some(RecordRoute::SourceRoute) => Ok(RouteToAnswer::SourceRoute),
        None => {
            let hop = route_calls::next_hop(routes, destination);
            hop_to(hop)
        }
    }
}

impl Routing {
    // The records of a state, for questions.
    pub fn records_seen(&self) -> RecordsSeen<'_>
        requires { WellFormed self.now }
        ensures { seen_table result ≡ record_table self.now }
    {
        RecordsSeen {
            keys: &self.record_keys,
            lengths: &self.record_lengths,
            count: self.records,
        }
    }

    // Whether a store agrees with the record table, which is well formed and read where it stands.
    fn fits(&self, store: &[u16]) -> bool
        requires { WellFormed self.now }
        ensures { result ≡ agrees (record_table self.now) store.now }
    {
        relay_store::agrees(&self.record_lengths, store)
    }

    // Whether a store agrees with the record table, which is well formed.
    pub fn agrees(self, store: &[u16]) -> bool
        requires { WellFormed self }
        ensures { result ≡ agrees (record_table self) store.now }
    {
        self.fits(store)
    }

    // The state as it came, for a refusal.
    fn refuse_record(self, refusal: Refusal) -> RecordOutcome
        ensures { result ≡ refused_record self refusal }
    {
        RecordOutcome {
            answer: Err(refusal),
            state: self,
        }
    }

    // A route record of a source: each relay gets the relays after it, and then the source gets all of them.
    pub fn store_route_record(
        self,
        store: &mut [u16],
        source: Nwk,
        relays: RelayList,
    ) -> RecordOutcome
        ensures value { result ≡ store_route_record self source relays store.old }
        ensures store_after { store.new ≡ store_after_record self source relays store.old }
    {
        if !self.formed() {
            return self.refuse_record(Refusal::StateIllFormed);
        }
        if !self.fits(store) {
            return self.refuse_record(Refusal::StoreDisagrees);
        }
        if 32 < relays.count {
            return self.refuse_record(Refusal::ListTooLong);
        }
        let mut state = self;
        let mut records = Records {
            keys: &mut state.record_keys,
            lengths: &mut state.record_lengths,
            count: state.records,
        };
        let answer = route_record::store_record(&mut records, store, source, relays);
        state.records = records.count;
        RecordOutcome { answer, state }
    }

    // The record of a destination is removed; whether there was one.
    pub fn remove_route_record(self, store: &mut [u16], destination: Nwk) -> ToldOutcome
        ensures value { result ≡ remove_route_record self destination store.old }
        ensures store_after { store.new ≡ store_after_removal self destination store.old }
    {
        if !self.formed() {
            return self.refuse_told(Refusal::StateIllFormed);
        }
        if !self.fits(store) {
            return self.refuse_told(Refusal::StoreDisagrees);
        }
        let mut state = self;
        let mut records = Records {
            keys: &mut state.record_keys,
            lengths: &mut state.record_lengths,
            count: state.records,
        };
        let removed = route_record::remove_record(&mut records, store, destination);
        state.records = records.count;
        ToldOutcome {
            answer: Ok(removed),
            state,
        }
    }

    // What a record's word on the way comes to: where it names none, the Active route decides.
    fn answer_by(self, destination: Nwk, way: Option<RecordRoute>) -> Result<RouteToAnswer, Refusal>
        requires { WellFormed self }
        ensures { result ≡ answer_by self destination way }
    {
        match way {
            Some(RecordRoute::Direct) => Ok(RouteToAnswer::NextHop(destination)),
            Some(RecordRoute::SourceRoute) => Ok(RouteToAnswer::SourceRoute),
            None => {
                let hop = self.active_hop(destination);
                hop_to(hop)
            }
        }
    }

    // `route_to` on a state that is well formed and a store that agrees with it.
    pub fn route_to_core(
        self,
        store: &[u16],
        destination: Nwk,
        max_source_route: u8,
    ) -> RouteToOutcome
        requires { WellFormed self × Agrees (record_table self) store.now }
        ensures { result ≡ route_to_core self destination max_source_route store.now }
    {
        // The columns that are read are copied here and in `active_hop`: to lend `self`, all of it is copied.
        let keys = self.record_keys;
        let lengths = self.record_lengths;
        let count = self.records;
        let records = RecordsSeen {
            keys: &keys,
            lengths: &lengths,
            count,
        };
        let x = route_record::way_to(&records, store, destination, max_source_route);
        let way = x.route;
        let relays = x.relays;
        let answer = self.answer_by(destination, way);
        RouteToOutcome { answer, relays }
    }

    // The way to a destination: direct, by the relays of its record if they are fewer than the limit, or by the Active route.
    pub fn route_to(self, store: &[u16], destination: Nwk, max_source_route: u8) -> RouteToOutcome
        ensures { result ≡ route_to self destination max_source_route store.now }
    {
        if !self.formed() {
            return refuse_way(Refusal::StateIllFormed);
        }
        if !self.fits(store) {
            return refuse_way(Refusal::StoreDisagrees);
        }
        let x = route_record::way_to(&self.records_seen(), store, destination, max_source_route);
        let way = x.route;
        let relays = x.relays;
        let answer = answer_on(&self.routes_seen(), destination, way);
        RouteToOutcome { answer, relays }
    }

    // The way to a destination by the default policy, whose limit is 12.
    pub fn route_to_default(self, store: &[u16], destination: Nwk) -> RouteToOutcome
        ensures { result ≡ route_to_default self destination store.now }
    {
        self.route_to(store, destination, 12)
    }

    // How many route records there are.
    pub fn record_count(self) -> Result<usize, Refusal>
        ensures { result ≡ record_count self }
    {
        if !self.formed() {
            return Err(Refusal::StateIllFormed);
        }
        Ok(self.records)
    }

    // The route record at a place in ascending order with its relays, and nothing from the count on.
    pub fn record_at(self, store: &[u16], place: usize) -> RecordAtOutcome
        ensures { result ≡ record_at self place store.now }
    {
        if !self.formed() {
            return refuse_record_at(Refusal::StateIllFormed);
        }
        if !self.fits(store) {
            return refuse_record_at(Refusal::StoreDisagrees);
        }
        let row = route_record::record_at(&self.records_seen(), store, place);
        RecordAtOutcome {
            answer: Ok(row.entry),
            relays: row.relays,
        }
    }
}
