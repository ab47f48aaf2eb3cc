// The lines of calls that no case shows: of a lack of memory, of a recording that ends at a limit or at a length, of a
// playback after a fault of the disk, and of a script that leaves no samples.
use edit_ports::MemSink;
use pcm_base::{NoMemory, Numbers, Refusal};
use script_text::{
    CallFault, PlayEnd, PlayLine, RecordEnd, RecordLine, Summary, write_last, write_refused,
    write_summary,
};
use std::test::*;

static RECORD_ENDS: [(RecordEnd, &[u8]); 2] = [
    (
        RecordEnd::Refused {
            reason: Refusal::LengthLimit { len: 4294967297 },
        },
        b"rec 2 1 3 no LengthLimit 4294967297\nend 4\n",
    ),
    (RecordEnd::Limit, b"rec 2 1 3 limit\nend 4\n"),
];

fn recorded(end: RecordEnd) -> Option<RecordLine> {
    Some(RecordLine {
        track: 2,
        pieces: 1,
        samples: 3,
        end,
    })
}

// A playback that is refused.
const STOPPED: PlayLine = PlayLine {
    frames: 2,
    end: PlayEnd::Refused {
        reason: Refusal::Stopped { faults: 1 },
    },
};

const DAMAGED: CallFault = CallFault::Damaged {
    file: 16,
    at: 0,
    want: 827015745,
    have: 340282366920938463463374607431768211455,
};

const EMPTY: Summary = Summary {
    number: 18446744073709551615,
    lines: 4096,
    commits: 9,
    cells: 0,
    blocks: 0,
    column: None,
};

const LINES: &[u8] = b"refused NoMemory\n\
    refused Damaged 16 0 827015745 340282366920938463463374607431768211455\n\
    play 2 no Stopped 1\n\
    end 4\n\
    gen 18446744073709551615 4096 commits 9\n\
    cells 0\n\
    blocks 0\n\
    col none\n";

#[test]
fn lines_that_no_case_shows(rt: HostRuntime) -> Result<(), NoMemory> {
    for (end, text) in &RECORD_ENDS {
        let mut sink = MemSink::new(rt.alloc(), 512, 64, Numbers::new(Vec::new(rt.alloc())))?;
        assert!(rt; write_last(&mut sink, recorded(*end), None, 4).is_ok());
        assert!(rt; sink.bytes() == *text);
    }
    let mut sink = MemSink::new(rt.alloc(), 512, 64, Numbers::new(Vec::new(rt.alloc())))?;
    assert!(rt; write_refused(&mut sink, CallFault::NoMemory).is_ok());
    assert!(rt; write_refused(&mut sink, DAMAGED).is_ok());
    assert!(rt; write_last(&mut sink, None, Some(STOPPED), 4).is_ok());
    assert!(rt; write_summary(&mut sink, &EMPTY).is_ok());
    assert!(rt; sink.bytes() == LINES);
    Ok(())
}
