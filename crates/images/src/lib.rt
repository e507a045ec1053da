#![tactic(auto)]

// Lemmas on images: which files they hold, what recovery makes of them, and what a changed slot does. There is no code here.
