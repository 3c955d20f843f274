//! Plan files at worked values.

use irq_plan::{Event, Plan, PlanFault, What};
use std::alloc::{AllocError, Global};
use std::test::Fail;

/// Whether the row is so, a text, and its events or the number of its first line out of form.
type Row = (bool, &'static str, Result<&'static [Event], u64>);

#[rattlefmt::skip]
static ROWS: [Row; 66] = [
    // Each kind of event in each form that it may have, and several events in order.
    (true, "5 irq 32\n", Ok(&[Event { due: 5, what: What::Irq(32) }])),
    (true, "5 irq 47", Ok(&[Event { due: 5, what: What::Irq(47) }])),
    (true, "0000000005 irq 32\n", Ok(&[Event { due: 5, what: What::Irq(32) }])),
    (true, "4294967296 irq 40\n", Ok(&[Event { due: 4_294_967_296, what: What::Irq(40) }])),
    (
        true,
        "1 drop FFFFFF8000004000\n",
        Ok(&[Event { due: 1, what: What::Drop(0xFFFF_FF80_0000_4000) }]),
    ),
    (
        true,
        "1 drop ffffff8000004000\n",
        Ok(&[Event { due: 1, what: What::Drop(0xFFFF_FF80_0000_4000) }]),
    ),
    (true, "0 fill 0\n", Ok(&[Event { due: 0, what: What::Fill(0) }])),
    (true, "0 fill 0000000000001000\n", Ok(&[Event { due: 0, what: What::Fill(0x1000) }])),
    (true, "0 fill 7ffffffff000\n", Ok(&[Event { due: 0, what: What::Fill(0x7FFF_FFFF_F000) }])),
    (
        true,
        "0 drop ffff800000000000\n",
        Ok(&[Event { due: 0, what: What::Drop(0xFFFF_8000_0000_0000) }]),
    ),
    (
        true,
        "0 keep 2 ffff800000000000\n",
        Ok(&[Event { due: 0, what: What::Keep(2, 0xFFFF_8000_0000_0000) }]),
    ),
    (true, "7 keep 4 0", Ok(&[Event { due: 7, what: What::Keep(4, 0) }])),
    (true, "7 keep 3 01000", Ok(&[Event { due: 7, what: What::Keep(3, 0x1000) }])),
    (true, "7 forget 3 7FFFFFFFF000\n", Ok(&[Event { due: 7, what: What::Forget(3, 0x7FFF_FFFF_F000) }])),
    (true, "", Ok(&[])),
    (
        true,
        "3 irq 33\n3 fill 1000\n3 irq 32\n3 keep 2 1000\n4 drop 1000\n4 forget 2 1000\n20 irq 32",
        Ok(&[
            Event { due: 3, what: What::Irq(33) },
            Event { due: 3, what: What::Fill(0x1000) },
            Event { due: 3, what: What::Irq(32) },
            Event { due: 3, what: What::Keep(2, 0x1000) },
            Event { due: 4, what: What::Drop(0x1000) },
            Event { due: 4, what: What::Forget(2, 0x1000) },
            Event { due: 20, what: What::Irq(32) },
        ]),
    ),
    // Numbers out of form, and then words.
    (true, "0 irq 31", Err(1)),
    (true, "0 irq 48", Err(1)),
    (true, "5 irq 032", Err(1)),
    (true, "5 irq 0x20", Err(1)),
    (true, "00000000005 irq 32", Err(1)),
    (true, "4294967297 irq 32", Err(1)),
    (true, "9999999999 irq 32", Err(1)),
    (true, "+5 irq 32", Err(1)),
    (true, "5 fill 1001", Err(1)),
    (true, "5 fill 1800", Err(1)),
    (true, "5 drop 800000000000", Err(1)),
    (true, "5 drop ffff7ffffffff000", Err(1)),
    (true, "5 drop 00000000000001000", Err(1)),
    (true, "5 drop 0x1000", Err(1)),
    (true, "5 keep 1 1000", Err(1)),
    (true, "5 keep 5 1000", Err(1)),
    (true, "5 keep 02 1000", Err(1)),
    (true, "5 keep x 1000", Err(1)),
    (true, "5 keep 2 1001", Err(1)),
    (true, "5 keep 2 800000000000", Err(1)),
    (true, "5 forget 1 1000", Err(1)),
    (true, "5 forget 5 1000", Err(1)),
    (true, "5 forget 2 ffff7ffffffff000", Err(1)),
    (true, "\n", Err(1)),
    (true, "5 irq 32\n\n", Err(2)),
    (true, "5 irq  32", Err(1)),
    (true, " 5 irq 32", Err(1)),
    (true, "5 irq 32 ", Err(1)),
    (true, "5 irq 32\r\n", Err(1)),
    (true, "5\tirq\t32\n", Err(1)),
    (true, "1 fill", Err(1)),
    (true, "1 irq 32 x", Err(1)),
    (true, "1 2 3 4 5 6 7 8 9 0", Err(1)),
    (true, "5 IRQ 32", Err(1)),
    (true, "5 keep 1000", Err(1)),
    (true, "5 forget 2", Err(1)),
    (true, "5 keep 2 1000 x", Err(1)),
    (true, "5 keep 2  1000", Err(1)),
    (true, "5 irq 2 32", Err(1)),
    (true, "5 fill 2 1000", Err(1)),
    (true, "5 KEEP 2 1000", Err(1)),
    (true, "5 irq 32\n4 keep 2 1000", Err(2)),
    (true, "5 irq 32\n9 irq\n1", Err(2)),
    (true, "1 irq 32\n0 irq 32\n", Err(2)),
    // Rows with another event, one more, none, another line, no line, and a line of a plan.
    (false, "5 irq 32\n", Ok(&[Event { due: 5, what: What::Irq(33) }])),
    (
        false,
        "5 irq 32\n",
        Ok(&[Event { due: 5, what: What::Irq(32) }, Event { due: 5, what: What::Irq(32) }]),
    ),
    (false, "5 irq 32\n", Ok(&[])),
    (false, "\n", Err(2)),
    (false, "\n", Ok(&[])),
    (false, "5 irq 32\n", Err(1)),
];

/// Whether these are all events of the plan, in order.
fn is_plan_of(plan: &Plan, events: &[Event]) -> bool {
    if plan.len() != events.len() {
        return false;
    }
    for (i, event) in events.iter().enumerate() {
        if i >= plan.len() || plan.event(i) != *event {
            return false;
        }
    }
    true
}

/// Whether the text is read as this.
fn is_read(alloc: Global, text: &[u8], wanted: Result<&[Event], u64>) -> bool {
    match (Plan::read(alloc, text), wanted) {
        (Ok(plan), Ok(events)) => is_plan_of(&plan, events),
        (Err(PlanFault::Line(number)), Err(line)) => number == line,
        _ => false,
    }
}

#[test]
fn texts_and_their_events(rt: HostRuntime) {
    for (index, (so, text, wanted)) in ROWS.iter().enumerate() {
        assert!(rt;
            is_read(rt.alloc(), text.as_bytes(), *wanted) == *so,
            "row {index}"
        );
    }
}

/// A text of so many lines.
fn lines(alloc: Global, count: usize) -> Result<Vec<u8>, AllocError> {
    let mut text = Vec::new(alloc);
    for _ in 0..count {
        text.extend_from_slice(b"7 irq 32\n")?;
    }
    Ok(text)
}

/// With ample memory a plan of many lines is read, and its last line may be the one that is out of
/// form.
#[test]
fn many_lines_are_read(rt: HostRuntime) -> Result<(), Fail> {
    let event = Event {
        due: 7,
        what: What::Irq(32),
    };
    let events = vec![in rt.alloc(); event; 20_000]?;
    let mut text = lines(rt.alloc(), 20_000)?;
    assert!(rt; is_read(rt.alloc(), &text, Ok(&events)));
    text.extend_from_slice(b"6 irq 32\n")?;
    assert!(rt; is_read(rt.alloc(), &text, Err(20_001)));
    Ok(())
}
