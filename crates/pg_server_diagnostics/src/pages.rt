//! The pages of codes.

/// Where the page of a code is in `docs/`: its file, and its heading as an anchor. `None` if there is no such code (ours).
pub fn page_of(code: &str) -> Option<&'static str> {
    match code {
        "C1" => Some("FINDINGS.md#c1-left-recursion"),
        "C2" => Some("FINDINGS.md#c2-repeated-part-can-be-empty"),
        "C3" => Some("FINDINGS.md#c3-alternative-can-be-empty-and-is-not-last"),
        "C4" => Some("FINDINGS.md#c4-alternatives-meet"),
        "C5" => Some("FINDINGS.md#c5-alternative-meets-the-follow-set"),
        "C6" => Some("FINDINGS.md#c6-repetition-meets-its-follow-set"),
        "C7" => Some("FINDINGS.md#c7-operand-can-be-empty"),
        "C8" => Some("FINDINGS.md#c8-follow-set-meets-operators"),
        "C9" => Some("FINDINGS.md#c9-gap-meets"),
        "C11" => Some("FINDINGS.md#c11-step-cost-over-4294967296"),
        "F1" => Some("GRAMMAR_FILES.md#f1-not-utf-8"),
        "F2" => Some("GRAMMAR_FILES.md#f2-bad-token"),
        "F3" => Some("GRAMMAR_FILES.md#f3-unexpected-token"),
        "F4" => Some("GRAMMAR_FILES.md#f4-unknown-name"),
        "F5" => Some("GRAMMAR_FILES.md#f5-name-defined-twice"),
        "F6" => Some("GRAMMAR_FILES.md#f6-no-start-rule"),
        "F7" => Some("GRAMMAR_FILES.md#f7-bad-literal"),
        "F8" => Some("GRAMMAR_FILES.md#f8-limit-passed"),
        "F9" => Some("GRAMMAR_FILES.md#f9-operator-not-admitted"),
        _ => None,
    }
}
