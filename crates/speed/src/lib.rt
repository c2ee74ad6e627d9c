// The benchmark's calls for Rust: a state of a size is filled, and every row of the inputs is a call on it.
// Each hands back the sum of the answers, of the exported form or of the core form.
#![tactic(auto)]

pub mod decisions;

#[unsafe(no_mangle)]
pub extern "C" fn warpteasel_speed_request(size: u16, exported: bool, inputs: &[u64]) -> u64 {
    let s = speed_routes::filled(size);
    if exported {
        speed_routes::requests(s, inputs)
    } else {
        speed_routes::requests_core(s, inputs)
    }
}

#[unsafe(no_mangle)]
pub extern "C" fn warpteasel_speed_reply(size: u16, exported: bool, inputs: &[u64]) -> u64 {
    let s = speed_routes::filled(size);
    if exported {
        speed_routes::replies(s, inputs)
    } else {
        speed_routes::replies_core(s, inputs)
    }
}

#[unsafe(no_mangle)]
pub extern "C" fn warpteasel_speed_begin(size: u16, exported: bool, inputs: &[u64]) -> u64 {
    let s = speed_routes::filled(size);
    if exported {
        speed_routes::begins(s, inputs)
    } else {
        speed_routes::begins_core(s, inputs)
    }
}

// The lent store has 2,048 zeros.
#[unsafe(no_mangle)]
pub extern "C" fn warpteasel_speed_record(
    size: u16,
    exported: bool,
    inputs: &[u64],
    store: &mut [u16],
) -> u64 {
    let r = speed_routes::filled(size);
    let s = speed_records::filled_records(r, store, size);
    if exported {
        speed_records::records(s, store, inputs)
    } else {
        speed_records::records_core(s, store, inputs)
    }
}

// The lent store has 2,048 zeros.
#[unsafe(no_mangle)]
pub extern "C" fn warpteasel_speed_route_query(
    size: u16,
    exported: bool,
    inputs: &[u64],
    store: &mut [u16],
) -> u64 {
    let r = speed_routes::filled(size);
    let s = speed_records::filled_records(r, store, size);
    if exported {
        speed_records::ways(s, store, inputs)
    } else {
        speed_records::ways_core(s, store, inputs)
    }
}

#[unsafe(no_mangle)]
pub extern "C" fn warpteasel_speed_link_status(size: u16, exported: bool, inputs: &[u64]) -> u64 {
    let s = speed_links::filled_links(size);
    if exported {
        speed_links::links(s, inputs)
    } else {
        speed_links::links_core(s, inputs)
    }
}

// The lent store has 2,048 zeros.
#[unsafe(no_mangle)]
pub extern "C" fn warpteasel_speed_decision(
    size: u16,
    exported: bool,
    inputs: &[u64],
    store: &mut [u16],
) -> u64 {
    let r = speed_routes::filled(size);
    let s = speed_records::filled_records(r, store, size);
    let n = decisions::filled_neighbors(size);
    if exported {
        decisions::decisions(s, n, store, inputs)
    } else {
        decisions::decisions_core(s, n, store, inputs)
    }
}
