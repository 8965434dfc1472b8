#![tactic(auto)]
// Names: a table of byte strings in ascending order, numbered from 1, with lookup from bytes to number and back.
ghost use Rattle.std.specs.Prelude.{◌≡◌, ◌<◌, ◌≤◌};
ghost use Rattle.names.specs.Table.{limit};
ghost use Rattle.names.specs.Numbers.{rows, bytes_of, number_of, is_name};
ghost use Rattle.names.specs.Flat.{Laid, start_of, sums};
ghost use Rattle.names.specs.Put.{put_at, after_put, put_name, after_name};

pub mod sets;
mod table;
pub mod tag;
mod words;

/// A name's number: from 1 up to LIMIT a name of the table, from HOST on one of the host's. Any other is no name.
#[derive(Clone, Copy, Debug, PartialEq, Eq)]
pub struct Name(pub u16);

impl Name {
    pub const NONE: u16 = 0;
    /// The first number past the table.
    pub const LIMIT: u16 = table::LIMIT;

    /// The first of the host's names.
    pub const HOST: u16 = 512;
}

/// A namespace's number; from LIMIT on it is none.
#[derive(Clone, Copy, Debug, PartialEq, Eq)]
pub struct Namespace(pub u16);

impl Namespace {
    pub const HTML: u16 = 0;

    pub const MATHML: u16 = 1;

    pub const SVG: u16 = 2;
    /// The first number past the namespaces.
    pub const LIMIT: u16 = 3;
}

// Where row k starts in the table's bytes; row LIMIT starts where the last name ends.
fn start_in(starts: &[u16], k: usize) -> usize
    requires starts { starts.now ≡ sums 0 rows }
    requires k { k ≤ limit }
    ensures { result ≡ start_of k }
{
    usize::from(starts[k])
}

// The bytes of name n, a part of the table's bytes.
fn name_in<'a>(bytes: &'a [u8], starts: &[u16], n: u16) -> &'a [u8]
    requires laid { Laid bytes.now starts.now }
    requires n_lt_limit { n < limit }
    ensures { result.now ≡ bytes_of n }
{
    let k = usize::from(n);
    &bytes[start_in(starts, k)..start_in(starts, k + 1)]
}

// The lookup, in a table that is lent.
fn lookup_in(bytes: &[u8], starts: &[u16], b: &[u8]) -> u16
    requires { Laid bytes.now starts.now }
    ensures { result ≡ number_of b.now }
{
    for n in 1..Name::LIMIT {
        if b == name_in(bytes, starts, n) {
            return n;
        }
    }
    Name::NONE
}

/// The number of the name with the bytes b, and 0 where the table has none.
// A constant is laid down anew wherever it is used, so each is used once here and lent.
pub fn lookup(b: &[u8]) -> u16
    ensures { result ≡ number_of b.now }
{
    lookup_in(&table::BYTES, &table::STARTS, b)
}

// Writes b into out from place at on and answers the place after it; where it does not fit, writes nothing and answers at.
#[tactic(auto, unfolding(crate::specs::Put::put_at, crate::specs::Put::after_put))]
fn put(b: &[u8], out: &mut [u8], at: usize) -> usize
    ensures value { result ≡ after_put out.old b.now at }
    ensures out_after { out.new ≡ put_at out.old b.now at }
{
    if out.len() < at || out.len() - at < b.len() {
        return at;
    }
    let end = at + b.len();
    out[at..end].copy_from_slice(b);
    end
}

fn put_in(bytes: &[u8], starts: &[u16], n: u16, out: &mut [u8], at: usize) -> usize
    requires { Laid bytes.now starts.now }
    ensures value { result ≡ after_name out.old n at }
    ensures out_after { out.new ≡ put_name out.old n at }
{
    if Name::LIMIT <= n {
        return at;
    }
    put(name_in(bytes, starts, n), out, at)
}

/// Writes the bytes of name n into out from place at on and answers the place after them.
/// Where n is no name of the table, or its bytes do not fit, writes nothing and answers at.
pub fn put_name(n: u16, out: &mut [u8], at: usize) -> usize
    ensures value { result ≡ after_name out.old n at }
    ensures out_after { out.new ≡ put_name out.old n at }
{
    put_in(&table::BYTES, &table::STARTS, n, out, at)
}

/// Whether n is a name: of the table, or the host's. 0 is none, nor is a number from LIMIT up to HOST.
#[tactic(auto, unfolding(crate::specs::Numbers::is_name, crate::specs::Numbers::in_table))]
pub fn is_name(n: u16) -> bool
    ensures { result ≡ is_name n }
{
    (n != Name::NONE && n < Name::LIMIT) || Name::HOST <= n
}
