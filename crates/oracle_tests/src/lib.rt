// A second response-time analyser, written from the documents alone (docs/MODEL.md, docs/PLAN.md, docs/TEXT.md).
// It shares no code with the first: windows are scanned from release to release, jobs are counted release by release, and chains own their steps.
#![tactic(auto)]

pub mod fields;
pub mod node;
pub mod panel;
pub mod releases;
pub mod text;
