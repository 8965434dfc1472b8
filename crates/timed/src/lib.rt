#![tactic(auto)]
// A begin and a run, as the program has them, for a measurement in one process. It stands in a library of its own with one use of the
// run, so that it is compiled as in the program. Slices are lent one by one: that is the C interface.
use state::State;
use state::lent::Lent;

/// A begin and a run; how many records were done.
#[unsafe(no_mangle)]
pub extern "C" fn timed_run(
    nodes: &mut [u8],
    list: &mut [u16],
    modes: &mut [u16],
    pieces: &mut [u8],
    pairs: &mut [u8],
    input: &[u8],
) -> usize {
    let begun = begin::begin(nodes, modes, None).unwrap_or(State::empty());
    let mut lent = Lent {
        nodes,
        list,
        modes,
        pieces,
        pairs,
    };
    calls::run(begun, &mut lent, input).done
}
