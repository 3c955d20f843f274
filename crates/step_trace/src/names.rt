//! The names of vectors, calls and rules, as a line tells them.

ghost use Rattle.std.specs.Prelude.{◌≡◌, ◌-◌, ◌≤◌, [], map, slice_index_or};
ghost use Rattle.step_trace.specs.StepTexts.{call_name, rule_names, vector_name};

use nk_body::Call;

/// The general registers, by their numbers.
pub(crate) static REGISTERS: [&str; 16] = [
    "rax", "rcx", "rdx", "rbx", "rsp", "rbp", "rsi", "rdi", "r8", "r9", "r10", "r11", "r12", "r13",
    "r14", "r15",
];

/// The flags that are named, each with its place in RFLAGS (SDM volume 1, figure 3-8).
pub(crate) static FLAGS: [(&str, u8); 8] = [
    ("cf", 0),
    ("pf", 2),
    ("af", 4),
    ("zf", 6),
    ("sf", 7),
    ("if", 9),
    ("df", 10),
    ("of", 11),
];

/// The vectors, by their numbers (SDM volume 3, table 6-1).
static VECTORS: [&str; 22] = [
    "#DE",
    "#DB",
    "interrupt",
    "#BP",
    "#OF",
    "#BR",
    "#UD",
    "#NM",
    "#DF",
    "interrupt",
    "#TS",
    "#NP",
    "#SS",
    "#GP",
    "#PF",
    "interrupt",
    "#MF",
    "#AC",
    "#MC",
    "#XM",
    "#VE",
    "#CP",
];

/// The rules, by their numbers less 1.
static RULES: [&str; 27] = [
    "BadCall",
    "BadFrame",
    "BadLevel",
    "NotData",
    "StillLoose",
    "NotTable",
    "BadIndex",
    "KernelSlot",
    "BadBits",
    "BadTarget",
    "TooFree",
    "StillLinked",
    "NotEmpty",
    "NotRoot",
    "BadRange",
    "BadPolicy",
    "TooManyRegions",
    "NoRoom",
    "BadRegion",
    "NotAllocated",
    "OutOfBounds",
    "BadSource",
    "NoWrite",
    "WrittenOnce",
    "NotAtEnd",
    "LogFull",
    "NotCanonical",
];

/// The name at a place, or another one behind the last.
fn name_in(names: &[&'static str], place: usize, other: &'static str) -> &'static str
    ensures { result.now ≡ slice_index_or (map (λ name. name.now) names.now) place other.now }
{
    if place < names.len() {
        names[place]
    } else {
        other
    }
}

/// The name of a vector; the manual has none for some.
#[tactic(auto, unfolding(crate::specs::StepTexts::vector_name, crate::specs::StepTexts::vector_names))]
pub(crate) fn vector_name(vector: u8) -> &'static str
    ensures { result.now ≡ vector_name vector }
{
    name_in(&VECTORS, vector as usize, "interrupt")
}

/// The name of the rule with this number.
#[tactic(auto, unfolding(crate::specs::StepTexts::rule_names))]
pub(crate) fn rule_name(number: u64) -> &'static str
    requires least { 1 ≤ number }
    ensures { result.now ≡ slice_index_or rule_names (number - 1) [] }
{
    name_in(&RULES, (number - 1) as usize, "")
}

/// The name of a call.
pub(crate) fn call_name(call: Call) -> &'static str
    ensures { result.now ≡ call_name call }
{
    match call {
        Call::SetHandler { .. } => "set-handler",
        Call::DeclareTable { .. } => "declare-table",
        Call::WriteEntry { .. } => "write-entry",
        Call::RemoveTable { .. } => "remove-table",
        Call::LoadRoot { .. } => "load-root",
        Call::DeclarePages { .. } => "declare-pages",
        Call::Allocate { .. } => "allocate",
        Call::Free { .. } => "free",
        Call::Write { .. } => "write",
        Call::NoCall => "none",
    }
}
