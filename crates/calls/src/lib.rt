#![tactic(auto)]
// Runs of records, and single calls given as a record. The state is checked first, once.
ghost use Rattle.std.specs.Prelude.{◌≡◌, ◌-◌, IfOk};
ghost use Rattle.records.specs.Record.{item_at};
ghost use Rattle.records.specs.Refusal.{answer_number};
ghost use Rattle.sound.specs.State.{SoundFull};
ghost use Rattle.state.specs.Builder.{SameLoans, full_of};
ghost use Rattle.state.specs.Full.{result_of, refused};
ghost use Rattle.state.specs.Lent.{SameMemory};
ghost use Rattle.standard.specs.Run.{ran, run_of, on_single, single};
ghost use Rattle.edge.specs.Public.{whole_in, Checked};
ghost use Rattle.calls.specs.Public.{Follows};

use records::refusal::Refusal;
use state::State;
use state::builder::Builder;
use state::lent::Lent;

/// What a run gives: whether it came to the end of its input or what refused it, how many records were done, and the record after them.
#[derive(Clone, Copy)]
pub struct Ran {
    pub answer: Result<(), Refusal>,
    pub done: usize,
    pub state: State,
}

/// What a single call gives: whether it was done or what refused it, how many nodes it took (an adoption reports them), and the record after it.
#[derive(Clone, Copy)]
pub struct Single {
    pub answer: Result<(), Refusal>,
    pub taken: usize,
    pub state: State,
}

#[tactic(auto, unfolding(standard::specs::Run::on_single))]
// The call whose record is at a place, on a sound state: where what follows it starts.
fn call_at(b: &mut Builder<'_>, input: &[u8], at: usize) -> Result<usize, Refusal>
    requires { SoundFull (full_of b.old) }
    ensures loans { SameLoans b.old b.new }
    ensures outcome { result_of (answer_number result) (full_of b.new) ≡ on_single (item_at input.now at) input.now (full_of b.old) }
    ensures next { IfOk result (λ next. Follows input.now at next) }
{
    let (record, next) = records::item_at(input, at)?;
    dispatch::call(b, input, record)?;
    Ok(next)
}

// One record after the other, until one is refused; and how many were done.
fn run_all(b: &mut Builder<'_>, input: &[u8]) -> (Result<(), Refusal>, usize)
    requires { SoundFull (full_of b.old) }
    ensures loans { SameLoans b.old b.new }
    ensures outcome { ran (answer_number result.0) result.1 (full_of b.new) ≡ run_of input.now (full_of b.old) }
{
    let mut at = 0;
    let mut done = 0;
    // Each record is a byte at least; where the next one begins is read.
    while at < input.len() {
        match call_at(b, input, at) {
            Ok(next) => at = next,
            Err(e) => return (Err(e), done),
        }
        done += 1;
    }
    (Ok(()), done)
}

// The same on any state: the check comes first. Beside call_checked: one function over a closure would have to say again in its contract what the closure leaves.
fn run_checked(b: &mut Builder<'_>, input: &[u8]) -> (Result<(), Refusal>, usize)
    ensures loans { SameLoans b.old b.new }
    ensures outcome { Checked (SoundFull (full_of b.old)) (ran (answer_number result.0) result.1 (full_of b.new)) (run_of input.now (full_of b.old)) (ran 1 0 (full_of b.old)) }
{
    if !edge::check(b) {
        return (Err(Refusal::Unsound), 0);
    }
    run_all(b, input)
}

#[tactic(auto, unfolding(standard::specs::Run::single))]
fn call_checked(b: &mut Builder<'_>, input: &[u8]) -> Result<(), Refusal>
    ensures loans { SameLoans b.old b.new }
    ensures outcome { Checked (SoundFull (full_of b.old)) (result_of (answer_number result) (full_of b.new)) (single input.now (full_of b.old)) (refused 1 (full_of b.old)) }
{
    if !edge::check(b) {
        return Err(Refusal::Unsound);
    }
    call_at(b, input, 0)?;
    Ok(())
}

#[tactic(auto, unfolding(edge::specs::Public::whole, state::specs::Fields::core_of, state::specs::Fields::state_of))]
/// A run: the records of `input` one after the other, until one is refused; the calls before it stand. `Unsound` on a state that the check refuses, and else what
/// the record is refused with: `BadRecord` where it is cut short or badly written.
pub fn run(state: State, lent: &mut Lent<'_>, input: &[u8]) -> Ran
    ensures memory { SameMemory lent.old lent.new }
    ensures outcome { Checked (SoundFull (whole_in state lent.old)) (ran (answer_number result.answer) result.done (whole_in result.state lent.new)) (run_of input.now (whole_in state lent.old)) (ran 1 0 (whole_in state lent.old)) }
{
    // Also in `call`: a function over a closure that works on the builder would have to say again in its contract what the closure leaves.
    let mut handles = state.stack.handles;
    let mut builder = Builder {
        core: state.core(),
        context: state.context,
        stack: &mut handles,
        list: &mut *lent.list,
        modes: &mut *lent.modes,
        nodes: &mut *lent.nodes,
        pieces: &mut *lent.pieces,
        pairs: &mut *lent.pairs,
    };
    let (answer, done) = run_checked(&mut builder, input);
    let core = builder.core;
    let context = builder.context;
    Ran {
        answer,
        done,
        state: State::of(handles, core, context),
    }
}

#[tactic(auto, unfolding(edge::specs::Public::whole, state::specs::Fields::core_of, state::specs::Fields::state_of))]
/// A single call, given as the record at the front of `input`; what follows the record is not looked at. Refused as a record of a run is; the record and what
/// was lent stay then.
pub fn call(state: State, lent: &mut Lent<'_>, input: &[u8]) -> Single
    ensures memory { SameMemory lent.old lent.new }
    ensures outcome { Checked (SoundFull (whole_in state lent.old)) (result_of (answer_number result.answer) (whole_in result.state lent.new)) (single input.now (whole_in state lent.old)) (refused 1 (whole_in state lent.old)) }
    ensures taken { result.taken ≡ result.state.counts.nodes - state.counts.nodes }
{
    let mut handles = state.stack.handles;
    let mut builder = Builder {
        core: state.core(),
        context: state.context,
        stack: &mut handles,
        list: &mut *lent.list,
        modes: &mut *lent.modes,
        nodes: &mut *lent.nodes,
        pieces: &mut *lent.pieces,
        pairs: &mut *lent.pairs,
    };
    let answer = call_checked(&mut builder, input);
    let core = builder.core;
    let context = builder.context;
    Single {
        answer,
        taken: core.counts.nodes.saturating_sub(state.counts.nodes),
        state: State::of(handles, core, context),
    }
}
