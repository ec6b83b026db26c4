// What the linked calls answer with, what they promise, and the demands of them: definitions and laws. Their code is
// `lane`.
#![tactic(auto)]

pub mod answer;
