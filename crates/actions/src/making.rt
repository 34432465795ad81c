// Actions, by the names of document 01's list.
ghost use Rattle.std.specs.Prelude.{◌≡◌};
ghost use Rattle.definition.specs.Actions as actions;

use model::Action;
use request::PowerSource;

pub fn action(number: u8, argument: u8) -> Action
    ensures { result ≡ actions.action number argument }
{
    Action {
        number,
        argument,
        request: None,
    }
}

pub fn action_on(number: u8, request: PowerSource) -> Action
    ensures { result ≡ actions.action_on number request }
{
    Action {
        number,
        argument: 0,
        request: Some(request),
    }
}

pub fn send_control(message_type: u8) -> Action
    ensures { result ≡ actions.send_control message_type }
{
    action(model::SEND_CONTROL, message_type)
}
