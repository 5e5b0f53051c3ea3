// The strict reader over the symbols of a frame, in order: definitions and laws alone.
#![tactic(auto)]
