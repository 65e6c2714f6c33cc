// What is shown of refusals, kinds and a report's words.
use link::gate::GateClosed;
use link::message::{Kind, UnknownKind};
use protocol::refusal::Refusal;
use protocol::report::Word;
use std::test::Fail;

#[test]
fn refusals_kinds_and_words_are_shown(rt: HostRuntime) -> Result<(), Fail> {
    let alloc = rt.alloc();
    let gate = GateClosed { depth: 3 };
    let shown = format!(in alloc; "{} | {} | {}", Refusal::Listed, Refusal::from(gate), gate)?;
    assert_eq!(rt;
        shown.as_str(),
        "refused 9 | refused 15 at depth 3 | the gate is closed at depth 3"
    );
    let shown = format!(in alloc; "{} | {} | {}", Kind::CleanAck, UnknownKind(9), Word::Kept)?;
    assert_eq!(rt; shown.as_str(), "clean ack | unknown kind | kept");
    Ok(())
}
