// The keys of two batches, each looked up in the other batch, one place after another.
ghost use Rattle.std.specs.Prelude.{◌+◌, ◌<◌, ◌^◌, true, ◌≡◌, length};
ghost use Rattle.batch.specs.Workers.{KnownKeys, other_entry_at, KeptOther};

use batch_keys::Order;

// What is known of the keys of each batch, and whether they are indexed.
#[derive(Clone, Copy)]
pub struct Lookup {
    pub a: Order,
    pub b: Order,
    pub indexed: bool,
}

// Whether so many keys of each batch are enough for an index.
fn enough(a_keys: usize, b_keys: usize) -> bool
    ensures { result ≡ true → (a_keys < 2 ^ 32) × (b_keys < 2 ^ 32) }
{
    batch_keys::inner::index_pays(Order::Unknown, a_keys, b_keys)
        && batch_keys::inner::index_pays(Order::Unknown, b_keys, a_keys)
}

// Whether both have the same keys at the same positions, where a key is looked for first.
fn aligned(a_keys: &[u32], b_keys: &[u32]) -> bool {
    a_keys == b_keys
}

fn ascending(order: Order) -> bool {
    matches!(order, Order::Ascending)
}

// Whether a search for each key would take longer than an index.
fn index_pays(a_keys: &[u32], b_keys: &[u32], a_order: Order, b_order: Order) -> bool
    ensures { result ≡ true → (length a_keys.now < 2 ^ 32) × (length b_keys.now < 2 ^ 32) }
{
    if aligned(a_keys, b_keys) || ascending(a_order) && ascending(b_order) {
        return false;
    }
    enough(a_keys.len(), b_keys.len())
}

pub fn lookup_of(a_keys: &[u32], b_keys: &[u32]) -> Lookup
    ensures { KnownKeys a_keys.now b_keys.now result }
{
    let a = batch_keys::inner::order_of(a_keys);
    let b = batch_keys::inner::order_of(b_keys);
    let indexed = index_pays(a_keys, b_keys, a, b);
    Lookup { a, b, indexed }
}

// The position in the other batch of the key at a place, those before it having been looked for.
pub fn find_other(
    a_keys: &[u32],
    b_keys: &[u32],
    lookup: Lookup,
    at: usize,
    near: usize,
    block: &mut [u32],
) -> usize
    requires { KnownKeys a_keys.now b_keys.now lookup × (at < length a_keys.now + length b_keys.now)
        × KeptOther a_keys.now b_keys.now lookup.indexed block.old at }
    ensures { (result ≡ other_entry_at a_keys.now b_keys.now at)
        × KeptOther a_keys.now b_keys.now lookup.indexed block.new (at + 1) }
{
    let a_order = lookup.a;
    let b_order = lookup.b;
    let indexed = lookup.indexed;
    if at < a_keys.len() {
        return batch_keys::inner::find_next(b_keys, b_order, near, a_keys, at, indexed, block);
    }
    let i = at - a_keys.len();
    batch_keys::inner::find_next(a_keys, a_order, near, b_keys, i, indexed, block)
}
