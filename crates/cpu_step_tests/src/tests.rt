//! Turns over a small memory, with values by the manual. The supervisor may execute pages 0, 3 and 4, which stand in
//! frames 8, 7 and 6; page 1, frame 9, may be written and not executed. The user may execute page 6, which stands in
//! frame 8 too, and may write page 7, which stands in frame 9 too. Page 8, frame 5, has the gates and, from its byte 400
//! on, the task-state segment; it may be read alone. Page 9, frame 0, is the trap stack. The kernel slot has the same
//! pages; no other page has a translation. The gate of a vector v leads to 3000 + 10 v, all in hexadecimal.

// What a case is made of.
mod after;
mod cases;
mod machine;

// The cases.
mod acts;
mod body;
mod deliveries;
mod events;
mod faults;
mod fetches;
mod interrupts;
mod pending;
mod privileges;
mod quick;
mod returns;
mod sequences;
mod state;
mod wrong;
