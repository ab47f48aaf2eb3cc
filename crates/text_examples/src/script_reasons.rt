// The text of each reason that no line of a case is refused for.
use edit_ports::MemSink;
use pcm_base::{Answer, NoMemory, Numbers, Refusal, Reply};
use script_text::write_answer;
use std::test::*;

/// A reason, and its line.
struct Case {
    reason: Refusal,
    text: &'static [u8],
}

static REASONS: [Case; 5] = [
    Case {
        reason: Refusal::Spent {
            turns: 4611686018427387904,
        },
        text: b"no 7 Spent 4611686018427387904\n",
    },
    Case {
        reason: Refusal::RecordLimit { len: 4294901761 },
        text: b"no 7 RecordLimit 4294901761\n",
    },
    Case {
        reason: Refusal::Damaged {
            file: 0,
            at: 1,
            want: 827214401,
            have: 340282366920938463463374607431768211455,
        },
        text: b"no 7 Damaged 0 1 827214401 340282366920938463463374607431768211455\n",
    },
    Case {
        reason: Refusal::NoPin { pin: 3 },
        text: b"no 7 NoPin 3\n",
    },
    Case {
        reason: Refusal::NoMemory,
        text: b"no 7 NoMemory\n",
    },
];

#[test]
fn reasons(rt: HostRuntime) -> Result<(), NoMemory> {
    for case in &REASONS {
        let fails = Numbers::new(Vec::new(rt.alloc()));
        let mut sink = MemSink::new(rt.alloc(), 256, 256, fails)?;
        let answer = Answer {
            commit: 7,
            reply: Reply::Refused {
                reason: case.reason,
            },
        };
        assert!(rt; write_answer(&mut sink, &answer).is_ok());
        assert!(rt; sink.bytes() == case.text);
    }
    Ok(())
}
