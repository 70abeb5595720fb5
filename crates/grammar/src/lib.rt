// Typed sheets: their words, their grammar, and how a text is read. Definitions and laws alone.
#![tactic(auto)]
