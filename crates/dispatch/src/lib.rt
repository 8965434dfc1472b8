#![tactic(auto)]
// A call by its number, on a sound state.
ghost use Rattle.std.specs.Prelude.{◌≡◌};
ghost use Rattle.records.specs.Refusal.{answer_number};
ghost use Rattle.state.specs.Builder.{SameLoans, full_of};
ghost use Rattle.state.specs.Full.{result_of};
ghost use Rattle.state.specs.Ready.{Ready};
ghost use Rattle.standard.specs.Step.{step};
ghost use Rattle.standard.specs.Insertion.{inserted_element};
ghost use Rattle.standard.specs.Formatting.{created};
ghost use Rattle.state.specs.Open.{Open};

use records::Record;
use records::call::Call;
use records::refusal::Refusal;
use stacks::{close, implied};
use state::builder::Builder;

// Call 1. Not in the arm of `call`: the value that holds its attribute pairs would be cleared there at each record, whatever that asks for.
fn element(b: &mut Builder<'_>, input: &[u8], r: Record) -> Result<(), Refusal>
    requires { Open (full_of b.old) }
    ensures loans { SameLoans b.old b.new }
    ensures outcome { result_of (answer_number result) (full_of b.new) ≡ inserted_element input.now (full_of b.old) r.a r.b r.c r.from r.count }
{
    insertion::element(b, r.a, r.b, r.c, r.attributes(input))
}

// Call 4, as call 1.
fn create(b: &mut Builder<'_>, input: &[u8], r: Record) -> Result<(), Refusal>
    requires { Ready (full_of b.old) }
    ensures loans { SameLoans b.old b.new }
    ensures outcome { result_of (answer_number result) (full_of b.new) ≡ created input.now (full_of b.old) r.a r.from r.count }
{
    formatting::create_formatting_element_for(b, r.a, r.attributes(input))
}

/// The call that a record asks for: `input` holds the record's attribute pairs. `Unknown` for a number that no call has, and else what the call is
/// refused with; a refused call changes nothing.
pub fn call(b: &mut Builder<'_>, input: &[u8], r: Record) -> Result<(), Refusal>
    requires { Ready (full_of b.old) }
    ensures loans { SameLoans b.old b.new }
    ensures outcome { result_of (answer_number result) (full_of b.new) ≡ step input.now r (full_of b.old) }
{
    match Call::try_from(r.call)? {
        Call::Element => element(b, input, r),
        Call::Text => insertion::text(b, r.a),
        Call::Comment => insertion::comment(b, r.a, r.b),
        Call::CreateFormatting => create(b, input, r),
        Call::Marker => small::marker(b),
        Call::ClearToMarker => {
            small::clear(b);
            Ok(())
        }
        Call::Reconstruct => reconstruct::reconstruct_active_formatting_elements(b),
        Call::Adopt => adoption::adoption_agency(b, r.a),
        Call::MisnestedA => adoption::handle_misnested_a_tags(b),
        Call::EndTag => close::process_end_tag_in_body(b, r.a),
        Call::CloseP => close::close_p_element(b),
        Call::CloseCell => close::close_the_cell(b),
        Call::ImpliedEndTags => implied::generate_implied_end_tags(b, r.a, r.b),
        Call::Pop => small::pop(b),
        Call::Foster => small::foster(b, r.a),
        Call::PushMode => small::push_mode(b, r.a),
        Call::PopMode => small::pop_mode(b),
        Call::HeadSeen => small::head(b, r.a),
    }
}
