// Actions of mappings without locators.

/// The action of a mapping without locators (RFC 9301, section 5.4).
#[derive(Clone, Copy, Debug, PartialEq, Eq)]
pub enum Action {
    /// 0: no action is stated.
    NoAction,
    /// 1: packets are forwarded natively, past the tunnels.
    NativelyForward,
    /// 2: a Map-Request is to be sent.
    SendMapRequest,
    /// 3: packets are dropped, for no stated reason.
    DropNoReason,
    /// 4: packets are dropped by policy.
    DropPolicy,
    /// 5: packets are dropped for want of authentication.
    DropAuth,
}

impl Action {
    ghost use Rattle.std.specs.Prelude.{◌≡◌};
    ghost use Rattle.mapping_records.specs.Action.{action_of};

    /// The action of that code; 6 and above count as 3.
    pub fn of(code: u8) -> Action
        ensures { result ≡ action_of code }
    {
        if code == 0 {
            Action::NoAction
        } else if code == 1 {
            Action::NativelyForward
        } else if code == 2 {
            Action::SendMapRequest
        } else if code == 4 {
            Action::DropPolicy
        } else if code == 5 {
            Action::DropAuth
        } else {
            Action::DropNoReason
        }
    }
}
