// The frame layer: a store of frames, named by their home blocks, that survives any cut. It knows nothing of keys,
// counts or flags. What its calls answer with and promise, and laws; the code is in `frames_load`, `frames_change`,
// `frames_checkpoint` and `frames_advance`.
#![tactic(auto)]

pub mod answer;
