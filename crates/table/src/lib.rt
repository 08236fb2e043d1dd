// A table of numbered entries in a lent slice, found by their keys. Entries have the numbers 1, 2, .. in the order in which they were made, and
// 0 is none. The keys of one residue are a tree, in which the binary digits of the quotient lead the way: a walk meets at most 9 entries.
#![tactic(auto)]

ghost use Rattle.std.specs.Prelude.{◌≡◌, true, ◌<◌, ◌≤◌, length, get_or};
ghost use Rattle.table.specs.Inner.Table.{Table, Sought, size, room, key_limit, value_at, entry_of, grown, valued};

// How many numbers a table has.
pub const SIZE: usize = 655_360;

// A key's tree is its residue by this number.
const TREES: usize = 131_071;

// The first entry of each tree stands at the tree's own number, then how many entries there are, then the entries: key, two links, two values.
const NUMBER: usize = TREES;

const KEYS: usize = TREES + 1;

const VALUES: usize = TREES + 4;

// How many entries there is room for.
const ROOM: u32 = 100_020;

// One number of a table.
fn read(m: &[u32], at: usize) -> usize
    requires { at < length m.now }
    ensures { (result ≡ get_or m.now at 0) × (result < 4294967296) }
{
    m[at] as usize
}

// Where the number of the entry with the key stands, or the 0 at which a walk for it ends. With a 1 above them the digits fall at every step.
fn seek(m: &[u32], key: usize) -> usize
    requires { Table m.now × (key < key_limit) }
    ensures { Sought m.now key result }
{
    let mut at = key % TREES;
    let mut digits = key / TREES + 256;
    loop {
        let e = read(m, at);
        if e == 0 {
            return at;
        }
        let own = KEYS + 5 * e;
        if read(m, own) == key {
            return at;
        }
        at = own + 1 + digits % 2;
        digits = digits / 2;
    }
}

// Makes the entry of a missing key, if there is room, and puts its number where the walk ended. Its links and values are 0 already.
fn add(m: &mut [u32], key: usize, slot: usize) -> usize
    requires { Table m.old × (key < key_limit) × Sought m.old key slot × (get_or m.old slot 0 ≡ 0) }
    ensures { (m.new ≡ grown m.old key) × (result ≡ entry_of m.new key) }
{
    let e = m[NUMBER] + 1;
    if e > ROOM {
        return 0;
    }
    m[KEYS + 5 * (e as usize)] = key as u32;
    m[slot] = e;
    m[NUMBER] = e;
    e as usize
}

// The number of the entry with the key. Where it is missing the entry is made, if there is room, and else the number is 0.
#[tactic(auto, using(crate::proofs::Laws::grown_there))]
pub fn make(m: &mut [u32], key: usize) -> usize
    requires { Table m.old × (key < key_limit) }
    ensures { (m.new ≡ grown m.old key) × (result ≡ entry_of m.new key) }
{
    let slot = seek(m, key);
    let e = m[slot] as usize;
    if e != 0 {
        return e;
    }
    add(m, key, slot)
}

// Value j of the entry e.
pub fn value(m: &[u32], j: usize, e: usize) -> usize
    requires { (length m.now ≡ size) × (j < 2) × (e ≤ room) }
    ensures { (result ≡ get_or m.now (value_at j e) 0) × (result < 4294967296) }
{
    read(m, VALUES + j + 5 * e)
}

// Gives the entry e another value j.
pub fn put(m: &mut [u32], j: usize, e: usize, v: usize)
    requires { (length m.old ≡ size) × (j < 2) × (e ≤ room) × (v < 4294967296) }
    ensures { m.new ≡ valued m.old j e v }
{
    m[VALUES + j + 5 * e] = v as u32;
}
