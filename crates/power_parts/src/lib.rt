// The 52 steps of E in parts, each over a few bits of b: what such a part multiplies by. Definitions and laws alone.
#![tactic(auto)]
