#![tactic(auto)]
// The builder for tests and measurements written in C or Rust, which link it as a static library: requests on saved states, and
// runs whose state is checked again. The memory is the caller's and may hold anything. Slices are lent one by one: that is the C interface.
use state::State;
use state::lent::Lent;

/// What the probe does: the first n bytes of the buffer are a saved state and a request; as many bytes of the answer as are returned.
#[unsafe(no_mangle)]
pub extern "C" fn exported_serve(
    buffer: &[u8],
    n: usize,
    nodes: &mut [u8],
    list: &mut [u16],
    modes: &mut [u16],
    pieces: &mut [u8],
    pairs: &mut [u8],
    out: &mut [u8],
) -> usize {
    let mut lent = Lent {
        nodes,
        list,
        modes,
        pieces,
        pairs,
    };
    served::serve_whole(buffer, n, &mut lent, out)
}

/// A begin, a run and, if asked for, a check of the state that was reached: 1 if it is sound or not asked for.
#[unsafe(no_mangle)]
pub extern "C" fn exported_checked(
    nodes: &mut [u8],
    list: &mut [u16],
    modes: &mut [u16],
    pieces: &mut [u8],
    pairs: &mut [u8],
    input: &[u8],
    asked: bool,
) -> usize {
    let begun = begin::begin(nodes, modes, None).unwrap_or(State::empty());
    let mut lent = Lent {
        nodes,
        list,
        modes,
        pieces,
        pairs,
    };
    let ran = calls::run(begun, &mut lent, input);
    usize::from(!asked || edge::is_sound(ran.state, lent.seen()))
}
