#![tactic(auto)]
// Tests on any state: standard input is a saved state and a request (docs/LAYOUT.md); what comes of it goes to standard output.
// The lent memory is not cleared first: no answer depends on what it held.
use state::lent::Lent;
use std::io;

// Serves the first n bytes of the input, and writes what comes of it.
fn serve(
    rt: &impl Print,
    input: &[u8],
    n: usize,
    lent: &mut Lent<'_>,
    out: &mut [u8],
) -> io::Result<()> {
    let written = served::serve_whole(input, n, lent, out);
    rt.write_all(&out[..written.min(out.len())])
}

fn main(rt: HostRuntime) -> io::Result<()> {
    let mut buffer = [0u8; 262144];
    let n = saved::input::read_full(&mut rt.stdin(), &mut buffer)?;
    let mut nodes = [170u8; 131104];
    let mut list = [43690u16; 256];
    let mut modes = [43690u16; 64];
    let mut pieces = [170u8; 32772];
    let mut pairs = [170u8; 16384];
    let mut lent = Lent {
        nodes: &mut nodes,
        list: &mut list,
        modes: &mut modes,
        pieces: &mut pieces,
        pairs: &mut pairs,
    };
    let mut out = [0u8; 524288];
    serve(&rt, &buffer, n, &mut lent, &mut out)
}
