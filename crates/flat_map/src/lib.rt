// The look-up that all tables share, over their keys as numbers. The laws of ordered rows stand in proofs/.
#![tactic(auto)]

ghost use Rattle.std.specs.Prelude.{◌≤◌, length, take, ◌≡◌};
ghost use Rattle.flat_map.specs.Seek.{place_of};
ghost use Rattle.flat_map.specs.Table.{Rising};

// The place of `key` among the first `count` of `keys`, by halving.
pub fn index_of(keys: &[u64], count: usize, key: u64) -> Result<usize, usize>
    requires { (count ≤ length keys.now) × Rising keys.now count }
    ensures { result ≡ place_of (take count keys.now) key }
{
    let mut low: usize = 0;
    let mut high = count;
    while low < high {
        let middle = low + (high - low) / 2;
        let k = keys[middle];
        if k == key {
            return Ok(middle);
        }
        if k < key {
            low = middle + 1;
        } else {
            high = middle;
        }
    }
    Err(low)
}
