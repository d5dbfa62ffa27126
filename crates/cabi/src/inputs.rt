// What a C host hands in, as numbers: a datagram or one of the bridge's five answers.
ghost use Rattle.std.specs.Prelude.{◌≡◌};
ghost use Rattle.cabi.specs.Calls.{called, input_named};

use crate::record::{RecordRow, agent_at};
use agent::judge::Input;
use agent::state::Agent;
use codec::refusals::Refusal;
use moves::proxy::BridgeAnswer;
use sessions::objects::Handle;

// 15, "answer of another kind", where the number names none.
fn input_in(input: u8, handle: u32) -> Result<Input, Refusal>
    ensures { result ≡ input_named input handle }
{
    let answer = match input {
        0 => return Ok(Input::Datagram),
        1 => BridgeAnswer::Created(Handle(handle)),
        2 => BridgeAnswer::Done,
        3 => BridgeAnswer::Sample,
        4 => BridgeAnswer::NoSample,
        5 => BridgeAnswer::Failed,
        _ => return Err(Refusal::OutOfTurn),
    };
    Ok(Input::Answer(answer))
}

// The agent that the record says, and what it is called with: 15 of the input comes before 16 of the record.
pub(crate) fn called(agent: &[RecordRow], input: u8, handle: u32) -> Result<(Agent, Input), Refusal>
    ensures { result ≡ called agent.now input handle }
{
    let input = input_in(input, handle)?;
    Ok((agent_at(agent)?, input))
}
