// The strict reader by its C calls, over the symbols of a frame: definitions and laws alone.
#![tactic(auto)]
