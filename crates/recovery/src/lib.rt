// What the frame layer's record means, what its calls do to that meaning and to a card, and the proof that any list of
// them, cut anywhere, recovers. Definitions and laws only.
#![tactic(auto)]
