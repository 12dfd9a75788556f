// Trials: the same random calls on both scanners, and their answers side by side.
pub(crate) mod bench;
pub(crate) mod calls;
pub(crate) mod changes;
pub(crate) mod coded;
pub(crate) mod histories;
pub(crate) mod making;
pub(crate) mod names;
pub(crate) mod pattern_rules;
pub(crate) mod pattern_texts;
pub(crate) mod plan;
pub(crate) mod report;
pub(crate) mod runs;
pub(crate) mod samples;
pub(crate) mod template_texts;
pub(crate) mod texts;
pub(crate) mod told;
pub(crate) mod walks;
