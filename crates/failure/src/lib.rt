// What the programs `chainreport` and `chainload` say of a read or a write that failed: the system's reason.
#![tactic(auto)]

ghost use Rattle.std.specs.Prelude.{◌≡◌};
ghost use Rattle.failure.specs.Reasons.{reason_of};

// The system's reason, without the error's number that std adds.
pub fn reason(text: &str) -> &str
    ensures { result.now ≡ reason_of text.now }
{
    match text.split_once(" (os error ") {
        Some((front, _)) => front,
        None => text,
    }
}
